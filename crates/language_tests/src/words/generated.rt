// The script for 7, by the rule of its numbers worked out apart: 1,023 commands.
use asm_base::{List, Text};
use bay::Source;
use generated_script::GeneratedScript;
use std::alloc::Global;
use std::test::*;

fn paths(alloc: Global) -> Option<Vec<Text>> {
    let mut paths = Vec::new(alloc);
    for path in [b"d0", b"d1", b"d2", b"d3"] {
        paths.push(List::from_slice(alloc, path).ok()?).ok()?;
    }
    Some(paths)
}

fn generated(alloc: Global, number: u64) -> Option<GeneratedScript> {
    let paths = paths(alloc)?;
    GeneratedScript::new(alloc, number, &paths).ok()
}

/// All bytes of the script, read in pieces of at most 100.
fn whole(alloc: Global, number: u64) -> Option<Vec<u8>> {
    let mut source = generated(alloc, number)?;
    let mut text = Vec::new(alloc);
    let mut piece = [0u8; 100];
    for _ in 0..4000 {
        let count = source.read(&mut piece).ok()?;
        if count == 0 {
            return Some(text);
        }
        text.extend_from_slice(&piece[..count]).ok()?;
    }
    None
}

fn line_feeds(text: &[u8]) -> usize {
    text.iter().filter(|b| **b == b'\n').count()
}

fn has_line(text: &[u8], number: usize, line: &[u8]) -> bool {
    text.split(|b| *b == b'\n').nth(number) == Some(line)
}

#[test]
fn script_is_made(rt: HostRuntime) -> Result<(), Fail> {
    let alloc = rt.alloc();
    let Some(text) = whole(alloc, 7) else {
        return Err(Fail::from("memory"));
    };
    assert_eq!(rt; line_feeds(&text), 1023);
    assert_eq!(rt; text.len(), 51000);
    assert!(rt; has_line(&text, 0, b"CREATE DISK 'd0' SIZE 64M;"));
    assert!(rt;
        has_line(
            &text,
            4,
            b"CREATE DISKGROUP DATA DISK 'd0', 'd1', 'd2', 'd3';"
        )
    );
    assert!(rt; has_line(&text, 5, b"dbcreate +DATA/gen/DATAFILE/f0 1M"));
    assert!(rt; has_line(&text, 20, b"dbcreate +DATA/gen/DATAFILE/f15 4M"));
    assert!(rt;
        has_line(
            &text,
            21,
            b"dbfill +DATA/gen/DATAFILE/f14.270.15 1564160 512 90"
        )
    );
    assert!(rt;
        has_line(
            &text,
            520,
            b"dbfill +DATA/gen/DATAFILE/f8.264.9 544256 512 57"
        )
    );
    assert!(rt;
        has_line(
            &text,
            521,
            b"ALTER DISKGROUP DATA DROP DISK DATA_0003 REBALANCE POWER 4;"
        )
    );
    assert!(rt;
        has_line(
            &text,
            522,
            b"dbfill +DATA/gen/DATAFILE/f15.271.16 2193920 512 3f"
        )
    );
    assert!(rt;
        has_line(
            &text,
            1021,
            b"dbfill +DATA/gen/DATAFILE/f6.262.7 3143168 512 20"
        )
    );
    assert!(rt; has_line(&text, 1022, b"lsdg"));
    Ok(())
}
