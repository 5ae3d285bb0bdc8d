//! A searched collection of your own: a list of appointments in the order of their times.
ghost use Rattle.std.specs.Prelude.{◌≡◌, [], OnErr, OnOk, count_by, false, nat_le};
ghost use Rattle.std.specs.List.{insert};
ghost use Rattle.std.specs.List.Sorted.{IsNonDecreasingBy};

use sequence::{Cut, Iter, Label, LabelledSequence, NewLabel, Put, Seek};
use servo_arc::Arc;
use std::alloc::{AllocError, Global};
use std::marker::Model;

/// The separator key of an appointment, and a cut: the appointments up to this time are before the cut.
#[derive(Clone, Copy)]
pub struct Time {
    pub minute: u32,
}

/// An appointment. The title is behind a handle, so that a clone equals the original.
#[derive(Clone, Drop)]
pub struct Appointment {
    pub time: Time,
    pub title: Arc<String>,
}

impl Label<Appointment> for Time {
    ghost label_of = { λ appointment. appointment.time };
}

impl NewLabel<Appointment> for Time {
    fn new(appointment: &Appointment) -> Result<Time, AllocError> {
        Ok(appointment.time)
    }
}

impl Cut<Appointment, Time> for Time {
    ghost is_before = { λ until appointment. nat_le appointment.time.minute until.minute };

    fn item(&self, appointment: &Appointment) -> bool {
        appointment.time.minute <= self.minute
    }

    fn label(&self, time: &Time) -> bool {
        time.minute <= self.minute
    }
}

/// It goes in behind those that are not later, and takes the place of none.
impl Cut<Appointment, Time> for Appointment {
    ghost is_before = { λ new appointment. nat_le appointment.time.minute new.time.minute };

    fn item(&self, appointment: &Appointment) -> bool {
        appointment.time.minute <= self.time.minute
    }

    fn label(&self, time: &Time) -> bool {
        time.minute <= self.time.minute
    }
}

impl Seek<Appointment, Time> for Appointment {
    ghost is_sought = { λ _ _. false };

    fn is_sought(&self, _appointment: &Appointment) -> bool {
        false
    }
}

impl Put<Appointment, Time> for Appointment {
    type Old = ();

    ghost made = { λ new. new };

    ghost replaced = { λ _ old. old };

    ghost put_out = { λ _. tt };

    fn into_item(self) -> Appointment {
        self
    }

    fn replace(self, _appointment: &mut Appointment) {}
}

/// Appointments in ascending order of their times. Those at the same time keep the order in which they were added.
#[derive(Drop)]
pub struct Agenda {
    appointments: LabelledSequence<Appointment, Time>,
}

impl Model for Agenda {
    ghost use Rattle.std.specs.Prelude.{List};
    ghost use Rattle.uses.specs.declared.agenda.Appointment.{Appointment};

    ghost Value = { List Appointment };

    ghost view = { λ agenda. agenda.appointments };

    ghost use Rattle.std.specs.List.Sorted.{IsNonDecreasingBy};

    ghost invariant = { λ agenda. IsNonDecreasingBy (λ a. a.time.minute) agenda.appointments };
}

impl Agenda {
    /// Creates an empty agenda, with no allocation.
    pub fn new() -> Agenda
        ensures { result ≡ [] }
    {
        Agenda {
            appointments: LabelledSequence::empty(),
        }
    }

    /// Inserts the appointment behind all that are not later. O(log n).
    ///
    /// # Errors
    ///
    /// `AllocError` if there is no memory. The appointment is then dropped.
    pub fn add(&mut self, alloc: Global, appointment: Appointment) -> Result<(), AllocError>
        ensures added { OnOk result (self.new ≡ insert self.old
            (count_by (λ a. nat_le a.time.minute appointment.time.minute) self.old) appointment) }
        ensures refused { OnErr result (self.new ≡ self.old) }
    {
        self.appointments.put_in(alloc, appointment)?;
        Ok(())
    }

    /// Returns the number of appointments that are not later than `time`. O(log n).
    pub fn count_until(&self, time: Time) -> usize
        ensures { result ≡ count_by (λ a. nat_le a.time.minute time.minute) self.now }
    {
        self.appointments.rank(&time)
    }

    /// Returns an iterator over the appointments, in ascending order of their times.
    pub fn iter(&self) -> Iter<'_, Appointment, Time>
        ensures items { result ≡ self.now }
        ensures in_order { IsNonDecreasingBy (λ a. a.time.minute) self.now }
    {
        self.appointments.iter()
    }
}
