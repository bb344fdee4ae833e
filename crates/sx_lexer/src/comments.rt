// Block comments.

ghost use Rattle.std.specs.Prelude.{◌≡◌, ◌≤◌, length, false, IfSome, MatchOption};
ghost use Rattle.sx_lexer.specs.Scans.{comment_end, edge_of};

use crate::characters::is_line_end;
use crate::place::{Place, step};

/// What two characters in a comment do.
#[derive(Clone, Copy, Debug, PartialEq, Eq)]
pub enum Edge {
    Opens,
    Closes,
    Inside,
}

/// What two characters that follow one another do in a comment.
fn edge_of(c: char, d: char) -> Edge
    ensures { result ≡ edge_of c d }
{
    match (c, d) {
        ('*', '/') => Edge::Closes,
        ('/', '*') => Edge::Opens,
        _ => Edge::Inside,
    }
}

/// The place behind the comment that is open at the place, and whether a line end stands before
/// it. Comments nest.
pub fn comment_end(start: Place<'_>) -> Option<(Place<'_>, bool)>
    ensures value { MatchOption result (comment_end 1 false start.entry.rest.now ≡ None) (λ x. comment_end 1 false start.entry.rest.now ≡ Some (x.0.rest.now, x.1)) }
    ensures shorter { IfSome result (λ x. length x.0.rest.now ≤ length start.entry.rest.now) }
{
    let mut place = start;
    let mut open: usize = 1;
    let mut line = false;
    while open > 0 {
        let Some((c, next)) = step(place) else {
            return None;
        };
        let Some((d, behind)) = step(next) else {
            return None;
        };
        match edge_of(c, d) {
            Edge::Closes => {
                open -= 1;
                place = behind;
            }
            Edge::Opens => {
                open += 1;
                place = behind;
            }
            Edge::Inside => {
                line |= is_line_end(c);
                place = next;
            }
        }
    }
    Some((place, line))
}
