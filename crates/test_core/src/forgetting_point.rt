//! Random histories of a charge point that may forget all at a boot, reject calls, get calls again
//! and lose replies. It accepts only what it obeyed, so at each moment it has the profiles that are
//! held, if it has said that it booted. If it never booted or rejected a call, and none waits for
//! it, it has exactly the profiles of the central system.

use crate::obeying_point::{Keys, RandomNumbers, obey};
use crate::played::{opening, step};
use crate::same::holds;
use messages::Call;
use profile::Row;
use site_core::{Machine, ProfileState, Reply};
use std::alloc::{AllocError, Global};
use std::process::Abort;

type Written = Result<String, AllocError>;

/// A point, and counts of what was seen of it over all histories.
#[derive(Drop)]
struct ForgettingPoint {
    random: RandomNumbers,
    /// The profiles that it has.
    rows: Vec<Keys>,
    /// The call to which it has yet to reply over the present link, and whether it accepts that.
    answered: Option<(u64, bool)>,
    /// Whether it has booted and not said so.
    is_untold: bool,
    /// Whether it neither booted nor rejected a call in this history.
    is_obeying: bool,
    in_step: u32,
    held: u32,
    unsure: u32,
    rejected: u32,
}

impl ForgettingPoint {
    /// Returns the charge point of a random history before its first step.
    fn new(alloc: Global) -> ForgettingPoint {
        ForgettingPoint {
            random: RandomNumbers { state: 20_261_130 },
            rows: Vec::new(alloc),
            answered: None,
            is_untold: false,
            is_obeying: true,
            in_step: 0,
            held: 0,
            unsure: 0,
            rejected: 0,
        }
    }

    /// Begins another random history with a charge point that has nothing.
    fn begin(&mut self) {
        self.rows.clear();
        self.answered = None;
        self.is_untold = false;
        self.is_obeying = true;
    }

    /// Sometimes the charge point of a random history boots, and forgets all its profiles.
    fn boot_at_random(&mut self) {
        if self.random.below(24) == 0 {
            self.rows.clear();
            self.answered = None;
            self.is_untold = true;
            self.is_obeying = false;
        }
    }

    /// Returns the words of a random step of the central system at the charge point.
    fn words(&mut self, alloc: Global, machine: &Machine) -> Written {
        let link = machine.link_of("CP1").unwrap_or(0);
        match self.random.below(16) {
            0..=2 => self.install(alloc),
            3 => self.clear(alloc),
            4..=8 => format!(in alloc; "CP1 send {link}"),
            9..=12 => self.reply(alloc, link),
            13 => format!(in alloc; "CP1 lost {link}"),
            14 => format!(in alloc; "CP1 boot 0"),
            _ => format!(in alloc; "CP1 attach"),
        }
    }

    /// Returns the words of the step that installs a random profile at the charge point, of a
    /// purpose that outlasts transactions.
    fn install(&mut self, alloc: Global) -> Written {
        let (id, level) = (self.random.below(4), self.random.below(2));
        let (connector, limit) = (self.random.below(3), self.random.below(100));
        let purpose = match self.random.below(3) {
            0 => "ChargePointMaxProfile",
            _ => "TxDefaultProfile",
        };
        format!(in alloc;
            "CP1 install id={id} connector={connector} purpose={purpose} level={level} periods=0:{limit}"
        )
    }

    /// Returns the words of the step that clears by one random criterion at the charge point, or
    /// all its profiles.
    fn clear(&mut self, alloc: Global) -> Written {
        let number = self.random.below(3);
        match self.random.below(8) {
            0 => format!(in alloc; "CP1 clear"),
            1 => format!(in alloc; "CP1 clear connector={number}"),
            2 => format!(in alloc; "CP1 clear level={number}"),
            3 => format!(in alloc; "CP1 clear purpose=ChargePointMaxProfile"),
            _ => format!(in alloc; "CP1 clear id={number}"),
        }
    }

    /// Returns the words of the step that records the charge point's reply to its last call. Before
    /// that no call has so high a number.
    fn reply(&mut self, alloc: Global, link: u64) -> Written {
        let (call, accepted) = self.answered.unwrap_or((1_000_000, true));
        if accepted {
            format!(in alloc; "CP1 confirm {link} {call}")
        } else {
            format!(in alloc; "CP1 reject {link} {call}")
        }
    }

    /// Records the reply to a step of the central system at the charge point.
    fn note(&mut self, rt: &impl Abort, reply: &Reply) {
        match reply {
            Reply::Sent(call) => self.answer(rt, call),
            Reply::Confirmed | Reply::Attached(_) | Reply::LinkLost => self.answered = None,
            Reply::Booted(_) => self.is_untold = false,
            _ => {}
        }
    }

    /// The charge point of a random history obeys a call that was sent, rejects it, or doesn't get
    /// it.
    fn answer(&mut self, rt: &impl Abort, call: &Call) {
        match self.random.below(6) {
            0 => {}
            1 => {
                self.answered = Some((call.number, false));
                self.is_obeying = false;
            }
            _ => {
                obey(&mut self.rows, &call.body).expect(rt, "error");
                self.answered = Some((call.number, true));
            }
        }
    }

    /// Checks a row of the central system for the charge point of a random history: one that is
    /// held is one that it has.
    fn check(&mut self, rt: &impl Abort, row: &Row, state: ProfileState) {
        let keys = Keys::of(row.connector, &row.profile);
        match state {
            ProfileState::Held => {
                self.held = self.held.saturating_add(1);
                let has = self.rows.iter().any(|own| *own == keys);
                holds(rt, has, "a held profile");
            }
            ProfileState::Unsure => self.unsure = self.unsure.saturating_add(1),
            ProfileState::Rejected => self.rejected = self.rejected.saturating_add(1),
            ProfileState::Sent => {}
        }
    }
}

/// Checks what the central system knows of each of its rows for the charge point of a random
/// history, unless a boot of the point isn't known yet. A point that obeys has no others once no
/// call waits.
fn check_rows(rt: &impl Abort, machine: &Machine, point: &mut ForgettingPoint) {
    let Some(book) = machine.book_of("CP1") else {
        return;
    };
    if point.is_untold {
        return;
    }
    let rows = book.view().rows;
    for row in rows {
        point.check(rt, row, machine.profile_state_of("CP1", row));
    }
    if point.is_obeying && machine.outbox_len("CP1") == 0 {
        holds(rt, point.rows.len() == rows.len(), "in step");
        point.in_step = point.in_step.saturating_add(1);
    }
}

/// Makes a random step of the central system in a history of a charge point that may forget, and
/// checks what is held then.
fn random_step(rt: &impl Abort, alloc: Global, machine: &mut Machine, point: &mut ForgettingPoint) {
    point.boot_at_random();
    let words = point.words(alloc, machine).expect(rt, "error");
    if let Ok(reply) = machine.make(&step(rt, alloc, words.as_str())) {
        point.note(rt, &reply);
    }
    check_rows(rt, machine, point);
}

/// Plays a random history of a charge point that may forget.
fn random_history(rt: &impl Abort, alloc: Global, point: &mut ForgettingPoint) {
    let mut machine = opening(rt, alloc);
    point.begin();
    let attach = step(rt, alloc, "CP1 attach");
    holds(rt, machine.make(&attach).is_ok(), "attach");
    for _ in 0..32u32 {
        random_step(rt, alloc, &mut machine, point);
    }
}

/// Checks over 100,000 random histories that a charge point which may forget all at a boot has what
/// is held.
#[test]
fn held_profiles_are_had_at_random(rt: HostRuntime) {
    let mut point = ForgettingPoint::new(rt.alloc());
    for _ in 0..100_000u32 {
        random_history(&rt, rt.alloc(), &mut point);
    }
    holds(&rt, point.in_step > 500, "in step");
    holds(&rt, point.held > 500, "held");
    holds(&rt, point.unsure > 200, "unsure");
    holds(&rt, point.rejected > 50, "rejected");
}
