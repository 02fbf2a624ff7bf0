// Where paths lead from a place, and names that patterns match.
use asm_base::{Name, Path};
use std::alloc::Global;
use std::test::*;
use verb_paths::{
    clause_path, has_star, is_host_path, is_match, resolve, resolve_or_here, resolve_pattern,
    target,
};

/// The place `+DATA/o`.
fn place(alloc: Global) -> Option<Vec<Name>> {
    let mut place = Vec::new(alloc);
    for part in [b"DATA".as_slice(), b"o".as_slice()] {
        place.push(Name::read(alloc, part, 80).ok()??).ok()?;
    }
    Some(place)
}

/// Names as a path is printed.
fn printed(alloc: Global, names: &[Name]) -> Option<Vec<u8>> {
    let mut text = Vec::from_slice(alloc, b"+").ok()?;
    for (i, name) in names.iter().enumerate() {
        if i > 0 {
            text.push(b'/').ok()?;
        }
        text.extend_from_slice(name.as_bytes()).ok()?;
    }
    Some(text)
}

/// Whether the path leads there from `+DATA/o`. Where it leads nowhere, that is the empty text.
fn leads(alloc: Global, path: &[u8], there: &[u8]) -> Option<bool> {
    let place = place(alloc)?;
    match resolve(alloc, &place, path).ok()? {
        None => Some(there.is_empty()),
        Some(names) => Some(printed(alloc, names.as_slice())?.as_slice() == there),
    }
}

const ROWS: [(&[u8], &[u8]); 14] = [
    (b"+", b"+"),
    (b"+OTHER", b"+OTHER"),
    (b"+OTHER/a", b"+OTHER/a"),
    (b"DATAFILE/u.256.1", b"+DATA/o/DATAFILE/u.256.1"),
    (b"..", b"+DATA"),
    (b"../p/../q", b"+DATA/q"),
    (b"../..", b"+"),
    (b"../../..", b"+"),
    (b"../../../OTHER", b"+OTHER"),
    (b"+..", b"+"),
    (b".", b""),
    (b"a//b", b""),
    (b"a/", b""),
    (b"u*", b""),
];

#[test]
fn paths_lead_from_the_place(rt: HostRuntime) -> Result<(), Fail> {
    let alloc = rt.alloc();
    for (path, there) in ROWS {
        assert_eq!(rt; leads(alloc, path, there), Some(true));
    }
    Ok(())
}

/// Whether the path of a verb names this group and so many parts in it.
fn names(alloc: Global, path: &[u8], group: &[u8], parts: usize) -> Option<bool> {
    let place = place(alloc)?;
    let path: Path = target(alloc, &place, path).ok()??;
    Some(path.group.as_bytes() == group && path.parts.len() == parts)
}

fn names_no_group(alloc: Global, path: &[u8]) -> Option<bool> {
    let place = place(alloc)?;
    Some(target(alloc, &place, path).ok()?.is_none())
}

#[test]
fn verbs_name_groups(rt: HostRuntime) -> Result<(), Fail> {
    let alloc = rt.alloc();
    assert_eq!(rt; names(alloc, b"DATAFILE/u.256.1", b"DATA", 3), Some(true));
    assert_eq!(rt; names(alloc, b"..", b"DATA", 0), Some(true));
    assert_eq!(rt; names(alloc, b"+x/a", b"x", 1), Some(true));
    assert_eq!(rt; names_no_group(alloc, b"+"), Some(true));
    assert_eq!(rt; names_no_group(alloc, b"../.."), Some(true));
    assert_eq!(rt; names_no_group(alloc, b"+DATA/*"), Some(true));
    Ok(())
}

/// How many parts the path of `du` and of `ls` leads to, and whether the last holds a `*`.
fn listed(alloc: Global, path: Option<&[u8]>) -> Option<(usize, bool)> {
    let place = place(alloc)?;
    let parts = resolve_pattern(alloc, &place, path).ok()??;
    let starred = match parts.as_slice().last() {
        Some(part) => has_star(part.as_slice()),
        None => false,
    };
    Some((parts.len(), starred))
}

fn used(alloc: Global, path: Option<&[u8]>) -> Option<usize> {
    let place = place(alloc)?;
    Some(resolve_or_here(alloc, &place, path).ok()??.len())
}

#[test]
fn reports_take_the_place(rt: HostRuntime) -> Result<(), Fail> {
    let alloc = rt.alloc();
    assert_eq!(rt; listed(alloc, None), Some((2, false)));
    assert_eq!(rt; listed(alloc, Some(b"+DATA/o*")), Some((2, true)));
    assert_eq!(rt; listed(alloc, Some(b"a*/..")), Some((2, false)));
    assert_eq!(rt; listed(alloc, Some(b"+*")), Some((1, true)));
    assert_eq!(rt; used(alloc, None), Some(2));
    assert_eq!(rt; used(alloc, Some(b"..")), Some(1));
    Ok(())
}

/// How many parts a path of a clause has in this group.
fn in_group(alloc: Global, group: &[u8], path: &[u8]) -> Option<Option<usize>> {
    let group = Name::read(alloc, group, 30).ok()??;
    let parts = clause_path(alloc, &group, path).ok()?;
    Some(parts.map(|parts| parts.len()))
}

#[test]
fn clauses_stay_in_their_group(rt: HostRuntime) -> Result<(), Fail> {
    let alloc = rt.alloc();
    assert_eq!(rt; in_group(alloc, b"data", b"+DATA/a/.."), Some(Some(2)));
    assert_eq!(rt; in_group(alloc, b"DATA", b"+DATA"), Some(Some(0)));
    assert_eq!(rt; in_group(alloc, b"DATA", b"+OTHER/a"), Some(None));
    assert_eq!(rt; in_group(alloc, b"DATA", b"a"), Some(None));
    assert_eq!(rt; in_group(alloc, b"DATA", b"+"), Some(None));
    Ok(())
}

const MATCHES: [(&[u8], &[u8], bool); 13] = [
    (b"u*", b"u.256.1", true),
    (b"U*1", b"u.256.1", true),
    (b"u*2", b"u.256.1", false),
    (b"*", b"x", true),
    (b"**", b"x", true),
    (b"*.*.*", b"u.256.1", true),
    (b"*.*.*.*", b"u.256.1", false),
    (b"*ab*b", b"aabb", true),
    (b"*ab*ab", b"aab", false),
    (b"a*b*c", b"aXbbYcc", true),
    (b"u", b"U", true),
    (b"u", b"u.", false),
    (b"u.*", b"u", false),
];

/// A pattern of many stars: it is matched in a time that the lengths bound, where trying each place
/// for each star would not end.
const MANY_STARS: &[u8] =
    b"*a*a*a*a*a*a*a*a*a*a*a*a*a*a*a*a*a*a*a*a*a*a*a*a*a*a*a*a*a*a*a*a*a*a*a*a*a*a*a*b";

// These have no clause, so that no definition is computed on a literal text.
fn matches(pattern: &[u8], name: &[u8]) -> bool {
    is_match(pattern, name)
}

fn leads_outside(path: &[u8]) -> bool {
    is_host_path(path)
}

#[test]
fn patterns_match(rt: HostRuntime) {
    for (pattern, name, wanted) in MATCHES {
        assert_eq!(rt; matches(pattern, name), wanted);
    }
    assert!(rt; !matches(MANY_STARS, &[b'a'; 80]));
}

#[test]
fn paths_outside(rt: HostRuntime) {
    assert!(rt; leads_outside(b"/tmp/out"));
    assert!(rt; leads_outside(b"./out"));
    assert!(rt; !leads_outside(b"../out"));
    assert!(rt; !leads_outside(b"a/out"));
}
