// How much each component weighs when the next one is chosen. Weights steer the search and enter no answer.
ghost use Rattle.std.specs.Prelude.{◌≡◌, ◌+◌, min, replicate, slice_index, slice_set};

// One more than the conflicts that the component took part in, for all that there may be, as `Row`.
#[derive(Clone, Copy)]
pub struct Weights {
    each: [u32; 64],
}

impl Weights {
    pub fn even() -> Self
        ensures { result.each ≡ replicate 64 1 }
    {
        Weights { each: [1; 64] }
    }

    // The component's weight, 0 from 64 on.
    pub fn of(&self, component: u8) -> u32
        ensures { result ≡ slice_index self.now.each component }
    {
        self.each.get(component as usize).copied().unwrap_or(0)
    }

    // Adds 1 to the component's weight, up to the largest number. (Tried `get_mut`: its contract does not say what the
    // array holds after a write.)
    #[tactic(auto, using(std::proofs::lemmas::List::set_past))]
    pub fn raise(&mut self, component: u8)
        ensures { self.new.each ≡ slice_set self.old.each component (min (slice_index self.old.each component + 1) 4294967295) }
    {
        if component < 64 {
            let weight = &mut self.each[component as usize];
            *weight = weight.saturating_add(1);
        }
    }
}
