//! The held requests of a script: those that no line has released yet.

ghost use Rattle.std.specs.Prelude.{◌≡◌, None};
ghost use Rattle.std.specs.List.{position};
ghost use Rattle.replay.specs.Held.{id_held, remove_held};
ghost use Rattle.replay.specs.ByCases.Held.{has_number};

use ocppj_frame::MessageId;

/// A held request for a composite schedule, and its CALL.
#[derive(Drop)]
pub struct Held {
    /// The number of the request.
    pub number: u64,
    /// The id of the CALL.
    pub id: MessageId,
}

/// Removes the held request of a number, if there is one. Returns the id of its CALL.
pub fn remove_held(held: &mut Vec<Held>, number: u64) -> Option<MessageId>
    ensures id { result ≡ id_held number held.old.items }
    ensures left { held.new.items ≡ remove_held number held.old.items }
    ensures kept { result ≡ None → held.new.items ≡ held.old.items }
{
    let place = place_of(held, number)?;
    Some(held.remove(place).id)
}

/// Returns the index of the schedule request of this number among those that the `hold` lines of a
/// replayed script hold until a `release` line.
fn place_of(held: &Vec<Held>, number: u64) -> Option<usize>
    ensures { result ≡ position (has_number number) held.now.items }
{
    held.iter().position(|held| held.number == number)
}
