//! A message that the central system receives, with its moment, its sender and its point.

ghost use Rattle.std.specs.Prelude.{◌≡◌};

use messages::Side;
use ocpp_scalars::Instant;
use std::marker::Model;

/// A message that the central system receives.
#[derive(Drop)]
pub struct SentText<'a> {
    moment: Instant,
    sender: Side,
    point: &'a str,
    frame: &'a str,
}

impl<'a> Model for SentText<'a> {
    ghost use Rattle.texts.specs.SentText.{Sent};

    ghost Value = { Sent };

    ghost view = { λ t. record {
      moment = t.moment;
      sender = t.sender;
      point = t.point.now;
      frame = t.frame.now;
    } };
}

impl<'a> SentText<'a> {
    ghost use Rattle.texts.specs.SentText.{sent};

    /// Makes a message of `frame`, an OCPP-J frame (OCPP-J 1.6, chapter 4). An operator sends it
    /// for a point, or the point itself does.
    pub fn new(moment: Instant, sender: Side, point: &'a str, frame: &'a str) -> SentText<'a>
        ensures { result ≡ sent moment sender point.entry.now frame.entry.now }
    {
        SentText {
            moment,
            sender,
            point,
            frame,
        }
    }

    /// Returns the moment at which the message comes.
    pub fn moment(&self) -> Instant
        ensures { result ≡ self.now.moment }
    {
        self.moment
    }

    /// Returns the sender's side.
    pub fn sender(&self) -> Side
        ensures { result ≡ self.now.sender }
    {
        self.sender
    }

    /// Returns the identity of the point that sends the message, or that an operator's message is
    /// for.
    pub fn point(&self) -> &str
        ensures { result.now ≡ self.now.point }
    {
        self.point
    }

    /// Returns the frame.
    pub fn frame(&self) -> &str
        ensures { result.now ≡ self.now.frame }
    {
        self.frame
    }
}
