ghost use Rattle.std.specs.Prelude.{◌≡◌};
ghost use Rattle.stock.specs.Events.{meeting, place_after};

use ledger::culm::Place;

// What happens to a culm.
#[derive(Clone, Copy)]
pub enum Event {
    Hold { member: u32 },
    Free { member: u32 },
    Set { member: u32 },
    Drop { member: u32 },
    Strike { member: u32 },
    Scrap,
}

// How an event meets a culm that it fits: the culm moves, or goes out of the stock.
#[derive(Clone, Copy, PartialEq, Eq, Debug)]
pub enum Meeting {
    Moved,
    Out,
}

// The whole table of places and events; the place is changed where the culm moves. None where the event does not fit the place.
pub fn meet(place: &mut Place, event: Event) -> Option<Meeting>
    ensures said { result ≡ meeting place.old event }
    ensures after { place.new ≡ place_after place.old event }
{
    match (*place, event) {
        (Place::Rack, Event::Hold { member }) => {
            *place = Place::Held { member };
            Some(Meeting::Moved)
        }
        (Place::Rack, Event::Scrap) => Some(Meeting::Out),
        (Place::Held { member: holder }, Event::Free { member } | Event::Drop { member })
            if holder == member => {
            *place = Place::Rack;
            Some(Meeting::Moved)
        }
        (Place::Held { member: holder }, Event::Set { member }) if holder == member => {
            *place = Place::Standing { member };
            Some(Meeting::Moved)
        }
        (Place::Standing { member: of }, Event::Strike { member }) if of == member => {
            *place = Place::Rack;
            Some(Meeting::Moved)
        }
        _ => None,
    }
}
