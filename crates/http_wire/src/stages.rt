// Whether a reply goes on.
ghost use Rattle.std.specs.Prelude.{ℕ, List, ◌≡◌};
ghost use Rattle.tpf_base.specs.HttpReply.{Gathered, is_open};
ghost use Rattle.http_wire.specs.Places.{place_for};

use crate::state::Stage;

/// Whether a reply goes on at this stage.
pub fn is_open(stage: Stage) -> bool
    ensures { (passed : ℕ) (held : List ℕ) (g : Gathered) → is_open (place_for stage passed held g) ≡ result }
{
    match stage {
        Stage::Finished | Stage::Failed(_) => false,
        Stage::Heads
        | Stage::Sized(_)
        | Stage::Unsized
        | Stage::Line
        | Stage::Chunk(_)
        | Stage::Return
        | Stage::Newline
        | Stage::Trailer => true,
    }
}
