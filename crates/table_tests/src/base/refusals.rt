// The lines of refusals, of each form of their arguments.
use asm_base::{ExtentId, List, Mode};
use refusal_lines::{DiskRef, Limited, Refusal, no_memory_line};
use std::alloc::Global;
use std::test::*;

/// Whether a refusal has this line, where a disk's number stands for DATA_0000.
fn has_line(alloc: Global, refusal: &Refusal, line: &[u8]) -> bool {
    match refusal.line(alloc, b"DATA_0000") {
        Ok(text) => text.as_slice() == line,
        Err(_) => false,
    }
}

/// A cause with a text.
#[derive(Clone, Copy)]
enum Spelt {
    Host,
    Damaged { block: u64 },
    TooSmall { need: u64 },
}

fn refusal_of(alloc: Global, cause: Spelt, text: &[u8]) -> Option<Refusal> {
    let text = List::from_slice(alloc, text).ok()?;
    Some(match cause {
        Spelt::Host => Refusal::HostFault { path: text },
        Spelt::Damaged { block } => Refusal::Damaged { path: text, block },
        Spelt::TooSmall { need } => Refusal::TooSmall {
            disk: DiskRef::Spelt(text),
            need,
        },
    })
}

fn has_spelt_line(alloc: Global, cause: Spelt, text: &[u8], line: &[u8]) -> bool {
    match refusal_of(alloc, cause, text) {
        Some(refusal) => has_line(alloc, &refusal, line),
        None => false,
    }
}

/// A cause without arguments, one with a number, and one with a disk.
fn have_short_lines(alloc: Global) -> [bool; 3] {
    let fault = Refusal::WriteFault {
        disk: DiskRef::Number(0),
    };
    [
        has_line(alloc, &Refusal::GroupExists, b"error 3 GroupExists"),
        has_line(alloc, &Refusal::Syntax { at: 24 }, b"error 1 Syntax 24"),
        has_line(alloc, &fault, b"error 31 WriteFault DATA_0000"),
    ]
}

const EXTENT: ExtentId = ExtentId {
    file: 256,
    index: 16,
};

/// Causes with two numbers, with a disk and its mode, and with a text and a limit.
fn have_long_lines(alloc: Global) -> [bool; 4] {
    let majority = Refusal::NoMajority { seen: 0, need: 1 };
    let space = Refusal::NoSpace { extent: EXTENT };
    let state = Refusal::DiskState {
        disk: DiskRef::Number(1),
        mode: Mode::Online,
    };
    let many = Refusal::TooMany {
        kind: Limited::Groups,
        limit: 8,
    };
    [
        has_line(alloc, &majority, b"error 9 NoMajority 0 1"),
        has_line(alloc, &space, b"error 25 NoSpace 256 16"),
        has_line(alloc, &state, b"error 34 DiskState DATA_0000 Online"),
        has_line(alloc, &many, b"error 36 TooMany groups 8"),
    ]
}

const SPELT: [(Spelt, &[u8], &[u8]); 3] = [
    (Spelt::Host, b"./none", b"error 37 HostFault ./none"),
    (
        Spelt::Damaged { block: 1033 },
        b"d0",
        b"error 13 Damaged d0 1033",
    ),
    (
        Spelt::TooSmall { need: 65 },
        b"DATA_0003",
        b"error 8 TooSmall DATA_0003 65",
    ),
];

#[test]
fn causes_without_a_text(rt: HostRuntime) {
    assert_eq!(rt; have_short_lines(rt.alloc()), [true; 3]);
    assert_eq!(rt; have_long_lines(rt.alloc()), [true; 4]);
    assert_eq!(rt; no_memory_line(), b"error 39 NoMemory".as_slice());
}

#[test]
fn causes_with_a_text(rt: HostRuntime) {
    for (cause, text, line) in SPELT {
        assert!(rt; has_spelt_line(rt.alloc(), cause, text, line));
    }
}
