//! Where type arguments and type parameters end, as it was found out before: a list of angles, from the last one to the first.

ghost use Rattle.std.specs.Prelude.{◌≡◌};
ghost use Rattle.es_lookahead.specs.Ends.{angle_at, end_in};

use es_grammar::types::TypeRow;

/// The token after a part, and the most nodes on a path of it.
#[derive(Clone, Copy)]
pub struct End {
    pub to: usize,
    pub height: usize,
}

/// What is known of the tokens from `first` to `at`, both included: where type arguments and type parameters end that begin at
/// each of them. A `<` or `<<` that opens something is alone; tokens in a row where nothing begins share one of these.
#[derive(Clone, Copy)]
pub struct Angle {
    pub first: usize,
    pub at: usize,
    pub arguments: Option<End>,
    pub parameters: Option<End>,
}

/// The most steps of a search by halves: a list has fewer than 2^64 items.
const HALVES: usize = 64;

/// What is known of a place, by halves.
fn angle_at(angles: &[Angle], at: usize) -> Option<Angle>
    ensures { result ≡ angle_at 64 angles.now at }
{
    let mut within = angles;
    let mut steps = HALVES;
    'halves: while steps > 0 {
        steps -= 1;
        let half = within.len() / 2;
        match within.get(half) {
            None => return None,
            Some(angle) => {
                let (front, behind) = within.split_at(half);
                if at < angle.first {
                    within = behind;
                    continue 'halves;
                }
                if angle.at < at {
                    within = front;
                    continue 'halves;
                }
                return Some(*angle);
            }
        }
    }
    None
}

/// What is known of a row at a place: none where nothing is, else its end, or none where it has none.
pub fn end_in(angles: &[Angle], row: TypeRow, at: usize) -> Option<Option<End>>
    ensures { result ≡ end_in angles.now row at }
{
    match row {
        TypeRow::ArgumentsRow => match angle_at(angles, at) {
            Some(angle) => Some(angle.arguments),
            None => None,
        },
        TypeRow::TypeParametersRow => match angle_at(angles, at) {
            Some(angle) => Some(angle.parameters),
            None => None,
        },
        _ => None,
    }
}
