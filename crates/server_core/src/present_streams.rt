//! The stream of each point's newest connection.

ghost use Rattle.std.specs.Prelude.{◌≡◌, ◌<◌, IsSome};
ghost use Rattle.server_core.specs.PresentLink.{entered, left, never_connected};

use crate::shared_stream::{SharedStream, shut};
use std::alloc::{AllocError, Global};
use std::marker::Model;
use std::sync::{Mutex, Wait};

/// A point's newest link, and the stream of that link while it is connected.
// The link stays when the stream goes. Otherwise an earlier connection that enters late would be
// taken for the newest, and the point would get no calls over it.
#[derive(Drop)]
struct Present {
    link: u64,
    stream: Option<SharedStream>,
}

impl Model for Present {
    ghost use Rattle.std.specs.Prelude.{is_some};
    ghost use Rattle.server_core.specs.PresentLink.{PresentState};

    ghost Value = { PresentState };

    ghost view = { λ present. record {
      link = present.link;
      is_connected = is_some present.stream;
    } };
}

impl Present {
    /// Returns the entry of a charge point that got no link yet, for the server's list of the
    /// points' present connections. Links are numbered from 1 on.
    fn new() -> Present
        ensures { result ≡ never_connected }
    {
        Present {
            link: 0,
            stream: None,
        }
    }

    /// Enters a link of a charge point in the server's list of present connections, with its
    /// stream. Returns the stream to shut, if there is one: of two streams the one with the earlier
    /// link.
    fn enter(&mut self, link: u64, stream: SharedStream) -> Option<SharedStream>
        ensures later { self.new ≡ entered self.old link }
        ensures shut { link < self.old.link → IsSome result }
    {
        // A link is drawn under the lock of the book, and enters later under this one. So a session
        // with a later link may have come first.
        if link < self.link {
            return Some(stream);
        }
        self.link = link;
        self.stream.replace(stream)
    }

    /// Removes the stream of a charge point's ended connection from the server's list of present
    /// connections, and returns it. Returns none if a later connection has entered.
    fn leave(&mut self, link: u64) -> Option<SharedStream>
        ensures { self.new ≡ left self.old link }
    {
        if self.link == link {
            self.stream.take()
        } else {
            None
        }
    }
}

/// The stream of each point's newest connection, by the point's place in the site. A point that
/// reconnects is served over its new connection, and the old one is shut.
#[derive(Drop)]
pub struct PresentStreams {
    places: Mutex<Vec<Present>>,
}

impl PresentStreams {
    /// Makes the streams of a site with `points` points, none of which is connected.
    pub fn make(alloc: Global, points: usize) -> Result<PresentStreams, AllocError> {
        let mut places = Vec::with_capacity(alloc, points)?;
        for _point in 0..points {
            places.push(Present::new())?;
        }
        Ok(PresentStreams {
            places: Mutex::new(places),
        })
    }

    /// Enters a link of a point, with its stream. Of two links the later one stays, whichever
    /// enters first: the point gets its calls over that one. The other stream is shut.
    pub fn enter<R: Wait>(&self, rt: &R, place: usize, link: u64, stream: SharedStream) {
        let mut places = self.places.lock(rt);
        let Some(present) = places.get_mut(place) else {
            return;
        };
        let earlier = present.enter(link, stream);
        drop(places);
        if let Some(earlier) = earlier {
            shut(&earlier);
        }
    }

    /// Removes the stream of a point's link whose connection has ended.
    pub fn leave<R: Wait>(&self, rt: &R, place: usize, link: u64) {
        let mut places = self.places.lock(rt);
        let Some(present) = places.get_mut(place) else {
            return;
        };
        let ended = present.leave(link);
        drop(places);
        drop(ended);
    }
}
