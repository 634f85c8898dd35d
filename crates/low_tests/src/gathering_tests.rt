//! Pieces are kept until they are handed on, and are not lost where that fails.

ghost use Rattle.std.specs.Prelude.{◌≡◌, Some};

use gathering::{GatheringSink, Start};
use std::alloc::Global;
use std::marker::Brand;
use tk_io::{MemSink, write_all};

/// A piece that a sink that gathers hands on as it comes.
const LONG: &[u8] = &[b'x'; 65_537];

// Whether two pieces are kept, and whether handing them on succeeds once and then again; with the sink behind.
fn handed_on<'a, B: Start>(alloc: Global, out: MemSink<'a>) -> (bool, bool, bool, MemSink<'a>)
    requires written { Some out.written ≡ B.written }
    requires faults { out.faults ≡ B.faults }
{
    let mut gathering: GatheringSink<MemSink, B> = GatheringSink::new(alloc, out);
    let kept = write_all(&mut gathering, b"abc").is_ok()
        && write_all(&mut gathering, b"de").is_ok();
    let first = gathering.flush().is_ok();
    let second = gathering.flush().is_ok();
    (kept, first, second, gathering.into_inner())
}

// Whether two pieces are handed on by one write, or by the next one where that fails.
fn hands_on(alloc: Global, fails: &[u64], room: &mut [u8], succeeds: bool) -> bool {
    let out = MemSink::new(fails, 9, room);
    let (kept, first, second, out) = handed_on::<Brand>(alloc, out);
    kept && first == succeeds && second && out.written() == b"abcde".as_slice()
}

// Whether a long piece is handed on as it comes, behind one that was kept.
fn passes_on(alloc: Global, room: &mut [u8]) -> bool {
    let out = MemSink::new(&[], 65_537, room);
    let out = passed_on::<Brand>(alloc, out);
    out.written().len() == 65_540 && out.written().starts_with(b"abcx".as_slice())
}

// A sink that has taken a short piece and a long one, and nothing else.
fn passed_on<'a, B: Start>(alloc: Global, out: MemSink<'a>) -> MemSink<'a>
    requires written { Some out.written ≡ B.written }
    requires faults { out.faults ≡ B.faults }
{
    let mut gathering: GatheringSink<MemSink, B> = GatheringSink::new(alloc, out);
    let _ = write_all(&mut gathering, b"abc");
    let _ = write_all(&mut gathering, LONG);
    gathering.into_inner()
}

#[test]
fn keeps_pieces_and_hands_them_on(rt: HostRuntime) {
    assert!(rt; hands_on(rt.alloc(), &[], &mut [0; 9], true));
    assert!(rt; hands_on(rt.alloc(), &[1], &mut [0; 9], false));
    assert!(rt; passes_on(rt.alloc(), &mut [0; 65_540]));
}
