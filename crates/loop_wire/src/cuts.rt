// How moves are cut, which stall, and what is counted of them.
ghost use Rattle.std.specs.Prelude.{◌≡◌, ◌+◌, ◌≤◌, ◌%◌, ◌==◌, ◌&&◌, not};
ghost use Rattle.rand_pcg.specs.Pcg.{pcg32};
ghost use Rattle.loop_wire.specs.declared.cuts.TheConstants.{MOST_CUT};
ghost use Rattle.loop_wire.specs.Looped.{moved_by, woke_after};

use rand_core::utils::NextWord;
use rand_pcg::Pcg32;
use tpf_base::Moved;

/// The most bytes that a call moves, where it is not cut shorter.
pub const MOST_CUT: u32 = 4096;

/// The most bytes that one call moves: from 1 to `MOST_CUT`.
pub fn cut(generator: &mut Pcg32) -> usize
    ensures least { 1 ≤ result }
    ensures most { result ≤ MOST_CUT }
    ensures step { generator.new ≡ (pcg32 generator.old).1 }
    ensures value { result ≡ (pcg32 generator.old).0 % MOST_CUT + 1 }
{
    let word = generator.next_word();
    (word % MOST_CUT) as usize + 1
}

/// Whether a call stalls: about one in four does, and none on a link that a wait answered before.
pub fn stalls(generator: &mut Pcg32, woken: bool) -> bool
    ensures step { generator.new ≡ (pcg32 generator.old).1 }
    ensures value { result ≡ (not woken && ((pcg32 generator.old).0 % 4 == 0)) }
{
    let word = generator.next_word();
    !woken && word % 4 == 0
}

/// A number below `count`, or 0 where there is none.
pub fn place(generator: &mut Pcg32, count: usize) -> usize
    ensures within { result ≤ count }
    ensures step { generator.new ≡ (pcg32 generator.old).1 }
{
    let word = generator.next_word();
    if count == 0 {
        return 0;
    }
    word as usize % count
}

/// The bytes that moved on all links, after a call with this answer. The count stands still at its
/// last value.
pub fn moved_after(answer: Moved, moved: u64) -> u64
    ensures { result ≡ moved_by answer moved }
{
    match answer {
        Moved::Moved(n) => moved.saturating_add(n as u64),
        _ => moved,
    }
}

/// Whether the last wait succeeded and no byte moved since, after a call with this answer.
pub fn is_woke_after(answer: Moved, woke: bool) -> bool
    ensures { result ≡ woke_after answer woke }
{
    match answer {
        Moved::Moved(_) => false,
        Moved::End => false,
        _ => woke,
    }
}
