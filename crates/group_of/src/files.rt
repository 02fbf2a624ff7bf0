//! Files that come, change their size and go, in the catalog and in the world. Each function does
//! nothing; its contract is the law.
ghost use Rattle.group_of.specs.Files.{CheckIsWorlds, MadeNumberIsWorlds, NameRefusalIsWorlds, NewFileIsWorlds, NewNameIsWorlds, NewNameLeadsOn, NextNumberIsWorlds, PutHasCells, RemovalIsWorlds, RemovalKeepsCells, RemovalLeadsOn, ResizedCellsAreLong, ResizedHasCells, SizeIsWorlds, SizeLeadsOn};

/// The tables with another size of a file are the world's group in which the file has other cells.
pub fn sizes_are_the_worlds()
    ensures { SizeIsWorlds }
{}

/// A file that the world gives another size has other cells, as many as the size says.
pub fn resized_files_have_cells()
    ensures cells { ResizedHasCells }
    ensures length { ResizedCellsAreLong }
{}

/// The tables to which the plan of a new file's name leads are the world's group with the file,
/// which is the one that the world makes.
pub fn new_files_are_the_worlds()
    ensures group { NewNameIsWorlds }
    ensures file { NewFileIsWorlds }
{}

/// The number of a new file is the world's, unless all numbers are taken.
pub fn numbers_are_the_worlds()
    ensures next { NextNumberIsWorlds }
    ensures made { MadeNumberIsWorlds }
{}

/// What refuses the check of a new file's name is what the world refuses the file by, or want of
/// memory. So is what refuses the plan of the name, or it is want of blocks for a file that the
/// world makes.
pub fn refusals_of_names_are_the_worlds()
    ensures check { CheckIsWorlds }
    ensures name { NameRefusalIsWorlds }
{}

/// The tables without a file and its names are the world's group without it, with the cells of the
/// others.
pub fn removals_are_the_worlds()
    ensures group { RemovalIsWorlds }
    ensures cells { RemovalKeepsCells }
{}

/// Where a head is put, and its file has as many cells as it says, each file has.
pub fn put_files_have_their_cells()
    ensures { PutHasCells }
{}

/// Where the tables describe a group, those to which the plan of a removal, of another size or of a
/// new file's name leads describe the world's group after it.
pub fn files_lead_on()
    ensures removal { RemovalLeadsOn }
    ensures size { SizeLeadsOn }
    ensures name { NewNameLeadsOn }
{}
