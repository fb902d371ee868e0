//! The calls on a session that the caller lends: each reads it whole, makes the call by value, and stores it whole. No function over the call: each closure would have
//! to say again what its call promises.
ghost use Rattle.std.specs.Prelude.{◌≡◌};
ghost use Rattle.encounter.specs.Calls.{begins, begins_conjunction, adds, call, Reached};

use crate::calls;
use crate::state::{Answer, Session};
use exact::{Conjunction, Encounter};

impl Session {
    pub fn begin(&mut self, E: Encounter) -> Answer
        requires { Reached self.old }
        ensures { (result ≡ (call (begins E) self.old).answer) × (self.new ≡ (call (begins E) self.old).session) × Reached self.new }
    {
        let r = calls::begin(*self, E);
        *self = r.session;
        r.answer
    }

    pub fn begin_conjunction(&mut self, C: Conjunction) -> Answer
        requires { Reached self.old }
        ensures { (result ≡ (call (begins_conjunction C) self.old).answer) × (self.new ≡ (call (begins_conjunction C) self.old).session) × Reached self.new }
    {
        let r = calls::begin_conjunction(*self, C);
        *self = r.session;
        r.answer
    }

    pub fn add(&mut self, count: u16) -> Answer
        requires { Reached self.old }
        ensures { (result ≡ (call (adds count) self.old).answer) × (self.new ≡ (call (adds count) self.old).session) × Reached self.new }
    {
        let r = calls::add(*self, count);
        *self = r.session;
        r.answer
    }
}
