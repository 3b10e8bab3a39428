//! Samples, drawn by a linear congruential generator.
ghost use Rattle.std.specs.Prelude.{◌≡◌, IfOk, OnOk};
ghost use Rattle.offline_replies.specs.Draws as spec;

use dh_base::memory::Memory;
use std::alloc::Global;

/// A value at a facility in a month.
#[derive(Drop)]
pub struct Sample {
    /// The number of the facility, from 0 to 99.
    pub facility: u32,
    /// How many months the month comes after January 2023, from 0 to 23.
    pub month: u32,
    /// The value, from 1 to 1,000.
    pub amount: u32,
}

/// Draws of samples, one after the other, from state 1 on.
#[derive(Drop)]
pub struct Draws {
    /// The state of the generator.
    pub state: u32,
}

impl Draws {
    // The next draw.
    #[tactic(auto, unfolding(crate::specs::Draws::next, crate::specs::Draws::drawn))]
    fn next_number(&mut self) -> u32
        ensures number { result ≡ spec.drawn self.old.state }
        ensures state { self.new.state ≡ spec.next self.old.state }
    {
        let next = (1_103_515_245 * u64::from(self.state) + 12_345) % 2_147_483_648;
        self.state = next as u32;
        self.state / 65_536
    }

    /// The next sample.
    #[tactic(auto, unfolding(crate::specs::Draws::sample_from, crate::specs::Draws::after_sample))]
    pub fn next_sample(&mut self) -> Sample
        ensures sample { result ≡ spec.sample_from self.old.state }
        ensures state { self.new.state ≡ spec.after_sample self.old.state }
    {
        let facility = self.next_number() % 100;
        let month = self.next_number() % 24;
        let amount = 1 + self.next_number() % 1000;
        Sample {
            facility,
            month,
            amount,
        }
    }

    /// The next samples.
    pub fn next_samples(&mut self, alloc: Global, count: u32) -> Result<Vec<Sample>, Memory>
        ensures samples { IfOk result (λ list. list.items ≡ spec.samples count self.old.state) }
        ensures state { OnOk result (self.new.state ≡ spec.after_samples count self.old.state) }
    {
        let mut list = Vec::new(alloc);
        for _ in 0..count {
            list.push(self.next_sample())?;
        }
        Ok(list)
    }
}
