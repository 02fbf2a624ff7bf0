// The lines of events, as worked scripts print them, and the marks of replies.
use asm_base::{ExtentId, Name};
use event_lines::{Event, Outcome, Rebalanced, Resynced};
use line_buffer::LineBuffer;
use std::alloc::Global;
use std::test::*;

fn name(alloc: Global, bytes: &[u8]) -> Option<Name> {
    Name::read(alloc, bytes, 30).ok().flatten()
}

fn prints(event: &Event<'_>, line: &[u8]) -> bool {
    let mut buffer = LineBuffer::new();
    event.write(&mut buffer);
    buffer.as_bytes() == line
}

fn moves(how: Rebalanced<'_>, group: &Name, line: &[u8]) -> bool {
    prints(&Event::Moved { group, how }, line)
}

fn syncs(how: Resynced<'_>, group: &Name, disk: &Name, line: &[u8]) -> bool {
    prints(&Event::Synced { group, disk, how }, line)
}

const EXTENT: ExtentId = ExtentId {
    file: 256,
    index: 9,
};

fn rebalances_have_lines(group: &Name, disk: &Name) -> bool {
    moves(
        Rebalanced::MovesLeft { steps: 1 },
        group,
        b"rebal DATA more 1\n",
    ) && moves(
        Rebalanced::Finished { steps: 0 },
        group,
        b"rebal DATA done 0\n",
    ) && moves(
        Rebalanced::OutOfSpace {
            steps: 4,
            extent: EXTENT,
        },
        group,
        b"rebal DATA nospace 4 256 9\n",
    ) && moves(
        Rebalanced::LostExtent {
            steps: 18446744073709551615,
            extent: EXTENT,
        },
        group,
        b"rebal DATA lost 18446744073709551615 256 9\n",
    ) && moves(
        Rebalanced::MoveFault { steps: 2, disk },
        group,
        b"rebal DATA fault 2 DATA_0003\n",
    ) && moves(
        Rebalanced::MoveEnds { disk },
        group,
        b"rebal DATA dismounted DATA_0003\n",
    )
}

fn resyncs_have_lines(group: &Name, disk: &Name) -> bool {
    syncs(
        Resynced::MarksLeft { steps: 8 },
        group,
        disk,
        b"sync DATA DATA_0003 more 8\n",
    ) && syncs(
        Resynced::Back { steps: 1 },
        group,
        disk,
        b"sync DATA DATA_0003 online 1\n",
    ) && syncs(
        Resynced::LeftMarked { extent: EXTENT },
        group,
        disk,
        b"sync DATA DATA_0003 left 256 9\n",
    ) && syncs(
        Resynced::SyncFault {
            steps: 0,
            disk: group,
        },
        group,
        disk,
        b"sync DATA DATA_0003 fault 0 DATA\n",
    ) && syncs(
        Resynced::SyncEnds { disk },
        group,
        disk,
        b"sync DATA DATA_0003 dismounted DATA_0003\n",
    )
}

fn expiries_have_lines(group: &Name, disk: &Name) -> bool {
    prints(&Event::Expired { group, disk }, b"expired DATA DATA_0003\n")
        && prints(
            &Event::ExpiryEnds { group, disk },
            b"expired DATA dismounted DATA_0003\n",
        )
}

#[test]
fn events_are_printed(rt: HostRuntime) -> Result<(), Fail> {
    let alloc = rt.alloc();
    let (Some(group), Some(disk)) = (name(alloc, b"DATA"), name(alloc, b"DATA_0003")) else {
        return Err(Fail::from("memory"));
    };
    assert!(rt; rebalances_have_lines(&group, &disk));
    assert!(rt; resyncs_have_lines(&group, &disk));
    assert!(rt; expiries_have_lines(&group, &disk));
    assert!(rt; Outcome::Done.mark() == b'.');
    assert!(rt; Outcome::Refused.mark() == b'!');
    Ok(())
}
