// The calls on paths that are kept or let go: hold, give back and finish.
ghost use Rattle.std.specs.Prelude.{◌≡◌, ℕ, ◌<◌, None, OnErr, IfErr, MatchOption, MatchResult, ◌≢◌, slice_index_or};
ghost use Rattle.sources.specs.Supplies.{Supply};
ghost use Rattle.models.specs.Kinds.{Kind};
ghost use Rattle.models.specs.Meanings.{Meaning};
ghost use Rattle.filter.specs.Calls.{hold as to_hold, give_back as to_give_back, finish as to_finish};
ghost use Rattle.cloud.specs.Promises.{Steps, GoesOn};
ghost use Rattle.cloud.specs.Views.{view, told, told_held, told_back};

use crate::cloud::Cloud;
use crate::reply::{Change, Held, Hold};
use filter::phase::Phase;
use refusals::Refusal;

// The first closed place.
fn first_closed(holds: &[Option<u16>; 16]) -> Option<usize>
    ensures { MatchOption result ((k : ℕ) → k < 16 → slice_index_or holds.now k None ≢ None) (λ p. (p < 16) × (slice_index_or holds.now p None ≡ None)) }
{
    holds.iter().position(|place| place.is_none())
}

// The node at which the place is open, if it is.
fn node_in(holds: &[Option<u16>; 16], place: u8) -> Option<u16>
    ensures { result ≡ slice_index_or holds.now place None }
{
    holds.get(usize::from(place)).copied().flatten()
}

impl<S: Copy> Cloud<'_, S> {
    // Keeps the path of a particle in a closed place, and answers a hold on it.
    pub fn hold(&mut self, particle: u16) -> Result<Held, Refusal>
        ensures same { MatchResult result (λ h. h.hold.stamp ≡ self.old.stamp) (λ _. self.new ≡ self.old) }
        ensures rest { self.new.rest ≡ self.old.rest }
        ensures steps { (k : Kind S) (m : Meaning S) (q : Supply) → Steps k m (to_hold particle) (told_held result) (view self.old) q (view self.new) q }
        ensures runs { (k : Kind S) (m : Meaning S) (q : Supply) → GoesOn k m (to_hold particle) (told_held result) (view self.old) q (view self.new) q }
    {
        if self.phase == Phase::Empty {
            return Err(Refusal::WrongPhase);
        }
        let Some(&node) = self.tips.get(usize::from(particle)) else {
            return Err(Refusal::OutOfRange);
        };
        let Some(place) = first_closed(&self.holds) else {
            return Err(Refusal::NoPlaceLeft);
        };
        self.forest.retain(node);
        self.holds[place] = Some(node);
        Ok(Held {
            hold: Hold {
                stamp: self.stamp,
                place: place as u8,
            },
            change: Change {
                issued: 0,
                freed: 0,
            },
        })
    }

    // Closes the place of the hold; a refusal hands the hold over again.
    pub fn give_back(&mut self, hold: Hold) -> Result<Change, (Refusal, Hold)>
        ensures same { IfErr result (λ p. (p.1 ≡ hold) × (self.new ≡ self.old)) }
        ensures rest { self.new.rest ≡ self.old.rest }
        ensures steps { (k : Kind S) (m : Meaning S) (q : Supply) → Steps k m (to_give_back hold.stamp hold.place) (told_back result) (view self.old) q (view self.new) q }
        ensures runs { (k : Kind S) (m : Meaning S) (q : Supply) → GoesOn k m (to_give_back hold.stamp hold.place) (told_back result) (view self.old) q (view self.new) q }
    {
        if hold.stamp != self.stamp {
            return Err((Refusal::NotHeld, hold));
        }
        let Some(node) = node_in(&self.holds, hold.place) else {
            return Err((Refusal::NotHeld, hold));
        };
        // a hold cannot be dropped, so it is taken apart
        let Hold { stamp: _, place } = hold;
        self.holds[usize::from(place)] = None;
        let freed = self.forest.release(node);
        Ok(Change { issued: 0, freed })
    }

    // Lets all particles go; open holds stay.
    pub fn finish(&mut self) -> Result<Change, Refusal>
        ensures same { OnErr result (self.new ≡ self.old) }
        ensures rest { self.new.rest ≡ self.old.rest }
        ensures steps { (k : Kind S) (m : Meaning S) (q : Supply) → Steps k m to_finish (told result) (view self.old) q (view self.new) q }
        ensures runs { (k : Kind S) (m : Meaning S) (q : Supply) → GoesOn k m to_finish (told result) (view self.old) q (view self.new) q }
    {
        if self.phase == Phase::Empty {
            return Err(Refusal::WrongPhase);
        }
        let freed = self.forest.release_all(&self.tips);
        self.tips.clear();
        self.phase = Phase::Empty;
        Ok(Change { issued: 0, freed })
    }
}
