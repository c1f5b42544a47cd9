// Whether a name comes to a colon, found once for each run of its characters: a text such as
// `a.a.a.` would otherwise be scanned to its end from each letter.
ghost use Rattle.std.specs.Prelude.{◌≡◌, ◌≤◌, false, true, not, drop, length};
ghost use Rattle.query_tokens.specs.Names.{leads, IsRun};

use crate::class::{Class, class_of};

/// A run of characters of names, as far as it was scanned: the places from `from` to before
/// `end`, and whether the name that goes on at each of them comes to a colon.
#[derive(Clone, Copy)]
pub struct Run {
    pub from: usize,
    pub end: usize,
    pub leads: bool,
}

/// The run that begins at a place.
fn run_from(chars: &[char], from: usize) -> Run
    requires { from ≤ length chars.now }
    ensures run { IsRun chars.now result }
    ensures here { result.leads ≡ leads false (drop from chars.now) }
{
    let mut dot = false;
    for i in from..chars.len() {
        let class = class_of(chars[i]);
        if class.is_name_char() {
            dot = false;
        } else if class.is(Class::Dot) {
            dot = true;
        } else {
            let leads = class.is(Class::Colon) && !dot;
            return Run {
                from,
                end: i,
                leads,
            };
        }
    }
    Run {
        from,
        end: chars.len(),
        leads: false,
    }
}

/// Whether the name that goes on at a place comes to no colon.
pub fn leads_nowhere(chars: &[char], place: usize, run: &mut Run) -> bool
    requires within { place ≤ length chars.now }
    requires run { IsRun chars.now run.old }
    ensures run { IsRun chars.now run.new }
    ensures test { result ≡ not (leads false (drop place chars.now)) }
{
    if run.from > place || run.end <= place {
        *run = run_from(chars, place);
    }
    !run.leads
}
