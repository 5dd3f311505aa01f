//! The contexts of a session.
ghost use Rattle.std.specs.Prelude.{◌≡◌, ◌<◌, ℕ, length, get_or, slice_get, IfOk, IsSome, true, false};
ghost use Rattle.std.specs.Option.{option_copied};
ghost use Rattle.profile_filter.specs.Kept.{Settings};
ghost use Rattle.pmcd_session.specs.Contexts.{keeps_all, new_contexts, may_set, with_profile};

use pcp_base::{List, NoMemory};
use profile_filter::{DomainPart, Profile};
use std::alloc::Global;
use std::marker::Model;

/// How many contexts a session has.
const COUNT: u32 = 16;

/// The profiles of a session's sixteen contexts, by number (pmNewContext(3)).
#[derive(Drop)]
pub struct Contexts {
    profiles: Vec<Profile>,
}

impl Model for Contexts {
    ghost use Rattle.std.specs.Prelude.{◌≡◌, length, List as Sequence};
    ghost use Rattle.profile_filter.specs.Kept.{Settings};

    ghost Value = { Sequence Settings };

    ghost view = { λ a. a.profiles.items };

    ghost invariant = { λ a. length a.profiles.items ≡ 16 };
}

impl Contexts {
    /// Contexts that keep every instance.
    pub fn new(alloc: Global) -> Result<Contexts, NoMemory>
        ensures { IfOk result (λ contexts. contexts ≡ new_contexts) }
    {
        let mut profiles = Vec::with_capacity(alloc, 16)?;
        for _ in 0..COUNT {
            profiles.push(Profile::all(alloc))?;
        }
        Ok(Contexts { profiles })
    }

    // Each profile keeps every instance again.
    fn renew_each(&mut self, alloc: Global)
        ensures each { (k : ℕ) (d : Settings) → k < length self.new → get_or self.new k d ≡ keeps_all }
        ensures many { length self.new ≡ 16 }
    {
        renew_all(alloc, &mut self.profiles);
    }

    /// Every context keeps every instance again.
    pub fn renew(&mut self, alloc: Global)
        ensures { self.new ≡ new_contexts }
    {
        self.renew_each(alloc);
    }

    /// The profile of a context; `None` exactly for a number above 15.
    pub fn profile(&self, context: u32) -> Option<&Profile>
        ensures value { option_copied result ≡ slice_get self.now context }
        ensures there { context < 16 → IsSome result }
    {
        self.profiles.get(context as usize)
    }

    /// Replaces the profile of a context, and answers whether it did: not for a number above 15, nor for more than 1,024
    /// parts and listed instances together, and then nothing is changed.
    pub fn set(
        &mut self,
        alloc: Global,
        context: u32,
        global: bool,
        parts: List<DomainPart>,
    ) -> bool
        ensures answer { result ≡ may_set context parts }
        ensures set { result ≡ true → self.new ≡ with_profile self.old context global parts }
        ensures kept { result ≡ false → self.new ≡ self.old }
    {
        let mut profile = Profile::all(alloc);
        if context >= COUNT || profile.set(global, parts).is_err() {
            return false;
        }
        self.profiles[context as usize] = profile;
        true
    }
}

// Makes each profile one that keeps every instance.
fn renew_all(alloc: Global, profiles: &mut [Profile])
    ensures { (k : ℕ) (d : Settings) → k < length profiles.new → get_or profiles.new k d ≡ keeps_all }
{
    for profile in profiles.iter_mut() {
        *profile = Profile::all(alloc);
    }
}
