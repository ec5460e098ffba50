// The order of preference among sets, for given pins.
ghost use Rattle.std.specs.Prelude.{◌≡◌, length, slice_index_or};
ghost use Rattle.archive.specs.Compared.{Compared, FirstDifference};
ghost use Rattle.archive.specs.Sets.{Prefers, OrderIsTotal, OrderIsStrict, FirstLeastIsUnique};
ghost use Rattle.std.specs.Ordering.{MatchOrdering};

use std::cmp::Ordering;

// The entry of a component without a pin. By a rule of the project a pin is given as a byte, and any byte may be given,
// so that pins are no `Option`s.
pub const NO_PIN: u8 = 255;

// Which of two sets comes first for these pins; none where the sets differ in length.
#[tactic(auto, using(crate::proofs::Ordering::order_laws))]
pub fn compare(pins: &[u8], s: &[u8], t: &[u8]) -> Option<Ordering>
    ensures value { Compared pins.now s.now t.now result }
    ensures total { OrderIsTotal }
    ensures strict { OrderIsStrict }
    ensures unique { FirstLeastIsUnique }
{
    if s.len() != t.len() {
        return None;
    }
    let place = first_difference(s, t);
    Some(place.map_or(Ordering::Equal, |k| preference(pin_at(pins, k), s[k], t[k])))
}

// The first place at which two sets of one length differ.
fn first_difference(s: &[u8], t: &[u8]) -> Option<usize>
    requires { length s.now ≡ length t.now }
    ensures { FirstDifference s.now t.now result }
{
    s.iter().zip(t).position(|(x, y)| x != y)
}

fn pin_at(pins: &[u8], component: usize) -> u8
    ensures { result ≡ slice_index_or pins.now component 255 }
{
    pins.get(component).copied().unwrap_or(NO_PIN)
}

// Which of two releases a component with this pin prefers: the pinned one first, then the newer.
fn preference(pin: u8, x: u8, y: u8) -> Ordering
    ensures { MatchOrdering result (Prefers pin x y) (x ≡ y) (Prefers pin y x) }
{
    match (x == pin, y == pin) {
        (true, false) => Ordering::Less,
        (false, true) => Ordering::Greater,
        _ => y.cmp(&x),
    }
}
