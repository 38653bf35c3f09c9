ghost use Rattle.std.specs.Prelude.{◌≡◌, [], ◌∷◌};
ghost use Rattle.hir.specs.Scratches.{tables};
ghost use Rattle.walk.specs.Events.{whole};
ghost use Rattle.interposed.specs.Acts.{Act, uses, fixes, loads, takes, global, barrier, tracks, does, Ready};

use hir::environment::Environment;
use hir::ids::IdentifierId;
use hir::packed::PackedEpoch;
use hir::scratch::Scratch;
use hir::tables::Reason;
use promote::identifier::promote_unnamed;

// The third pass: `epoch` is one more than the barriers so far.
#[derive(Clone, Copy)]
pub struct PromoteInterposed {
    pub epoch: u32,
}

impl PromoteInterposed {
    // A use names an identifier that has no name, is not constant, and was last tracked before the last barrier.
    pub fn use_place(&self, env: &mut Environment, scratch: &mut Scratch, id: IdentifierId)
        requires { Ready (whole self.now (tables env.old scratch.old)) (uses id ∷ []) }
        ensures { whole self.now (tables env.new scratch.new) ≡ does (whole self.now (tables env.old scratch.old)) (uses id) }
    {
        let work = scratch.work[id.0 as usize];
        let exposed = work.tracked.get().is_some_and(|epoch| epoch < self.epoch);
        if !work.constant && exposed {
            promote_unnamed(env, scratch, id, Reason::Interposed);
        }
    }

    // An identifier becomes constant.
    pub fn fix(&self, env: &Environment, scratch: &mut Scratch, id: IdentifierId)
        requires { Ready (whole self.now (tables env.now scratch.old)) (fixes id ∷ []) }
        ensures { whole self.now (tables env.now scratch.new) ≡ does (whole self.now (tables env.now scratch.old)) (fixes id) }
    {
        scratch.work[id.0 as usize].constant = true;
    }

    // A load: an unnamed lvalue becomes constant if what is loaded is, and is tracked.
    pub fn load(
        &self,
        env: &Environment,
        scratch: &mut Scratch,
        lvalue: IdentifierId,
        from: IdentifierId,
    )
        requires { Ready (whole self.now (tables env.now scratch.old)) (loads lvalue from ∷ []) }
        ensures { whole self.now (tables env.now scratch.new) ≡ does (whole self.now (tables env.now scratch.old)) (loads lvalue from) }
    {
        if env.is_unnamed(lvalue) {
            let i = lvalue.0 as usize;
            let mut work = scratch.work[i];
            work.constant = work.constant || scratch.work[from.0 as usize].constant;
            work.tracked = PackedEpoch::new(self.epoch);
            scratch.work[i] = work;
        }
    }

    // A property load: of something global the lvalue becomes global and constant; an unnamed lvalue is tracked.
    pub fn load_property(
        &self,
        env: &Environment,
        scratch: &mut Scratch,
        lvalue: IdentifierId,
        object: IdentifierId,
    )
        requires { Ready (whole self.now (tables env.now scratch.old)) (takes lvalue object ∷ []) }
        ensures { whole self.now (tables env.now scratch.new) ≡ does (whole self.now (tables env.now scratch.old)) (takes lvalue object) }
    {
        let i = lvalue.0 as usize;
        let global = scratch.work[object.0 as usize].global;
        let mut work = scratch.work[i];
        work.global = work.global || global;
        work.constant = work.constant || global;
        if env.is_unnamed(lvalue) {
            work.tracked = PackedEpoch::new(self.epoch);
        }
        scratch.work[i] = work;
    }

    // A global load: the lvalue becomes global.
    pub fn load_global(&self, env: &Environment, scratch: &mut Scratch, lvalue: IdentifierId)
        requires { Ready (whole self.now (tables env.now scratch.old)) (global lvalue ∷ []) }
        ensures { whole self.now (tables env.now scratch.new) ≡ does (whole self.now (tables env.now scratch.old)) (global lvalue) }
    {
        scratch.work[lvalue.0 as usize].global = true;
    }

    // A barrier, where the lvalue is absent or named: a new epoch begins.
    pub fn raise(&mut self, env: &Environment, scratch: &Scratch, lvalue: Option<IdentifierId>)
        requires { Ready (whole self.old (tables env.now scratch.now)) (barrier lvalue ∷ []) }
        ensures { whole self.new (tables env.now scratch.now) ≡ does (whole self.old (tables env.now scratch.now)) (barrier lvalue) }
    {
        if let Some(l) = lvalue {
            if env.is_unnamed(l) {
                return;
            }
        }
        self.epoch += 1;
    }

    // An unnamed lvalue is tracked from here on.
    pub fn track(&self, env: &Environment, scratch: &mut Scratch, lvalue: IdentifierId)
        requires { Ready (whole self.now (tables env.now scratch.old)) (tracks lvalue ∷ []) }
        ensures { whole self.now (tables env.now scratch.new) ≡ does (whole self.now (tables env.now scratch.old)) (tracks lvalue) }
    {
        if env.is_unnamed(lvalue) {
            scratch.work[lvalue.0 as usize].tracked = PackedEpoch::new(self.epoch);
        }
    }
}
