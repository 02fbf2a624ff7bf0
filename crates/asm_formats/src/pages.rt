//! Pages, each zeros or the block of one record, and the records of many. Each law is the contract
//! of a function that does nothing.

ghost use Rattle.asm_formats.specs.PageLaws.{IsPageCodec, OrderedListsAreOne, PagesHaveRecords, RecordsAreApart, RecordsAreOfPages};

/// A page is zeros or the block of one record.
pub fn page_codec()
    ensures { IsPageCodec }
{}

/// The records of a copy are those of its pages, in the order of their keys.
pub fn records_are_of_pages()
    ensures { RecordsAreOfPages }
{}

/// Pages that decode and hold different keys have records.
pub fn pages_have_records()
    ensures { PagesHaveRecords }
{}

/// Two lists in key order with the same items are one.
pub fn ordered_lists_are_one()
    ensures { OrderedListsAreOne }
{}

/// Pages that have records hold different keys.
pub fn records_are_apart()
    ensures { RecordsAreApart }
{}
