// Ranges of handles.
ghost use Rattle.std.specs.Prelude.{◌≡◌};
ghost use Rattle.model.specs.Answer.{is_bad_range};

use model::Range;

// Whether a range starts at 0 or ends before it starts.
#[tactic(auto, unfolding(model::specs::Answer::is_bad_range))]
pub fn is_bad(g: Range) -> bool
    ensures { result ≡ is_bad_range g }
{
    g.start == 0 || g.end < g.start
}
