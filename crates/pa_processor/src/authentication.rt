//! Signing, authenticating, and the branches that authenticate.

ghost use Rattle.std.specs.Prelude.{◌≡◌, ◌+◌, ◌^◌, ◌<◌, ◌≤◌, length, MatchResult, Some, None};
ghost use Rattle.pa_pac.specs.Signing as signing;
ghost use Rattle.pa_a64.specs.declared.instr.Instr.TheVariants as instr;
ghost use Rattle.pa_object.specs.declared.end.Trap.TheVariants.{AuthFail};
ghost use Rattle.pa_object.specs.Machine as spec;
ghost use Rattle.pa_object.specs.Traps.{Asked, key_of_branch, key_of_authenticate, answer, fail_unless};
ghost use Rattle.pa_object.specs.Effects.{key_of_sign, signed_in, accepted_in};
ghost use Rattle.pa_processor.specs.Processor.{Carried, Does, DoesOrTraps};

use crate::processor::Processor;
use pa_a64::{AuthenticateOp, BranchAuthenticatedOp, PlainOp, SignOp, StackOp};
use pa_object::Trap;
use pa_pac::{Key, NotCanonical, Pac, Way, auth, canonical, sign};

fn key_of_branch(op: BranchAuthenticatedOp) -> Key
    ensures { result ≡ key_of_branch op }
{
    match op {
        BranchAuthenticatedOp::Braa | BranchAuthenticatedOp::Blraa => Key::IA,
        BranchAuthenticatedOp::Blrab => Key::IB,
    }
}

fn key_of_authenticate(op: AuthenticateOp) -> Key
    ensures { result ≡ key_of_authenticate op }
{
    match op {
        AuthenticateOp::Autia => Key::IA,
        AuthenticateOp::Autib => Key::IB,
        AuthenticateOp::Autda => Key::DA,
        AuthenticateOp::Autdb => Key::DB,
    }
}

fn key_of_sign(op: SignOp) -> Key
    ensures { result ≡ key_of_sign op }
{
    match op {
        SignOp::Pacia => Key::IA,
        SignOp::Pacib => Key::IB,
        SignOp::Pacda => Key::DA,
        SignOp::Pacdb => Key::DB,
    }
}

// The upper half of the generic key's code.
fn generic_code<P: Pac>(p: &P, value: u64, modifier: u64) -> u64
    ensures { result ≡ signing.generic_code (P.code p.now) value modifier }
{
    p.pac(Key::GA, value, modifier) >> 32 << 32
}

impl Processor {
    // The address that the value was signed from, noted as accepted.
    fn accepts<P: Pac>(&mut self, p: &P, key: Key, modifier: u64, value: u64) -> Result<u64, Trap>
        requires { length self.old.machine.log < self.old.log_limit }
        ensures { MatchResult result
            (λ raw. (signing.auth (P.code p.now) key modifier value ≡ Some raw) × (self.new ≡ record self.old { machine = spec.takes key modifier raw self.old.machine }))
            (λ trap. (signing.auth (P.code p.now) key modifier value ≡ None) × (trap ≡ AuthFail) × (self.new ≡ self.old)) }
    {
        match auth(p, key, modifier, value) {
            Ok(raw) => {
                self.push_take(key, modifier, raw);
                Ok(raw)
            }
            Err(NotCanonical) => Err(Trap::AuthFail),
        }
    }

    // A register is authenticated where it stands.
    fn accepts_in<P: Pac>(&mut self, p: &P, key: Key, modifier: u64, rd: u8) -> Result<(), Trap>
        requires count { self.old.machine.count + 1 < 2 ^ 32 }
        requires log { length self.old.machine.log < self.old.log_limit }
        ensures { let m = self.old.machine in
            let asked : Asked = record { key = key; modifier = modifier; value = spec.register rd m } in
            Carried (fail_unless (answer (P.code p.now) asked)) (spec.next (accepted_in (P.code p.now) asked rd m)) self.old result self.new }
    {
        let raw = self.accepts(p, key, modifier, self.register(rd))?;
        self.set_register(rd, raw);
        self.next();
        Ok(())
    }

    // A register is signed where it stands.
    fn signs_in<P: Pac>(&mut self, p: &P, key: Key, modifier: u64, rd: u8)
        requires count { self.old.machine.count + 1 < 2 ^ 32 }
        requires log { length self.old.machine.log < self.old.log_limit }
        ensures { self.new ≡ record self.old { machine = spec.next (signed_in (P.code p.now) key modifier rd self.old.machine) } }
    {
        let raw = self.register(rd);
        let signed = sign(p, key, modifier, raw);
        self.set_register(rd, signed);
        self.push_sign(key, modifier, raw, signed);
        self.next();
    }

    #[tactic(auto, unfolding(pa_object::specs::Effects::effect, pa_object::specs::Traps::trap_of))]
    pub(crate) fn branch_authenticated<P: Pac>(
        &mut self,
        p: &P,
        op: BranchAuthenticatedOp,
        rn: u8,
        rm: u8,
    ) -> Result<(), Trap>
        requires count { self.old.machine.count + 1 < 2 ^ 32 }
        requires log { length self.old.machine.log + 2 ≤ self.old.log_limit }
        ensures { DoesOrTraps (P.code p.now) (instr.BranchAuthenticated op rn rm) self.old result self.new }
    {
        let raw = self.accepts(
            p,
            key_of_branch(op),
            self.register_or_sp(rm),
            self.register(rn),
        )?;
        match op {
            BranchAuthenticatedOp::Braa => self.lands(Way::Jump, raw),
            BranchAuthenticatedOp::Blraa | BranchAuthenticatedOp::Blrab => {
                self.links();
                self.lands(Way::Call, raw);
            }
        }
        Ok(())
    }

    #[tactic(auto, unfolding(pa_object::specs::Effects::effect, pa_object::specs::Traps::trap_of))]
    pub(crate) fn blraaz<P: Pac>(&mut self, p: &P, rn: u8) -> Result<(), Trap>
        requires count { self.old.machine.count + 1 < 2 ^ 32 }
        requires log { length self.old.machine.log + 2 ≤ self.old.log_limit }
        ensures { DoesOrTraps (P.code p.now) (instr.Blraaz rn) self.old result self.new }
    {
        let raw = self.accepts(p, Key::IA, 0, self.register(rn))?;
        self.links();
        self.lands(Way::Call, raw);
        Ok(())
    }

    #[tactic(auto, unfolding(pa_object::specs::Effects::effect, pa_object::specs::Traps::trap_of))]
    pub(crate) fn stack<P: Pac>(&mut self, p: &P, op: StackOp) -> Result<(), Trap>
        requires count { self.old.machine.count + 1 < 2 ^ 32 }
        requires log { length self.old.machine.log + 2 ≤ self.old.log_limit }
        ensures { DoesOrTraps (P.code p.now) (instr.Stack op) self.old result self.new }
    {
        match op {
            StackOp::Retab => {
                let raw = self.accepts(p, Key::IB, self.sp(), self.register(30))?;
                self.lands(Way::Return, raw);
                Ok(())
            }
            StackOp::Pacibsp => {
                self.signs_in(p, Key::IB, self.sp(), 30);
                Ok(())
            }
            StackOp::Autibsp => self.accepts_in(p, Key::IB, self.sp(), 30),
        }
    }

    #[tactic(auto, unfolding(pa_object::specs::Effects::effect, pa_object::specs::Traps::trap_of))]
    pub(crate) fn sign<P: Pac>(&mut self, p: &P, op: SignOp, rd: u8, rn: u8)
        requires count { self.old.machine.count + 1 < 2 ^ 32 }
        requires log { length self.old.machine.log < self.old.log_limit }
        ensures { Does (P.code p.now) (instr.Sign op rd rn) self.old self.new }
    {
        self.signs_in(p, key_of_sign(op), self.register_or_sp(rn), rd);
    }

    #[tactic(auto, unfolding(pa_object::specs::Effects::effect, pa_object::specs::Traps::trap_of))]
    pub(crate) fn authenticate<P: Pac>(
        &mut self,
        p: &P,
        op: AuthenticateOp,
        rd: u8,
        rn: u8,
    ) -> Result<(), Trap>
        requires count { self.old.machine.count + 1 < 2 ^ 32 }
        requires log { length self.old.machine.log < self.old.log_limit }
        ensures { DoesOrTraps (P.code p.now) (instr.Authenticate op rd rn) self.old result self.new }
    {
        self.accepts_in(p, key_of_authenticate(op), self.register_or_sp(rn), rd)
    }

    #[tactic(auto, unfolding(pa_object::specs::Effects::effect, pa_object::specs::Traps::trap_of))]
    pub(crate) fn plain<P: Pac>(&mut self, p: &P, op: PlainOp, rd: u8) -> Result<(), Trap>
        requires count { self.old.machine.count + 1 < 2 ^ 32 }
        requires log { length self.old.machine.log < self.old.log_limit }
        ensures { DoesOrTraps (P.code p.now) (instr.Plain op rd) self.old result self.new }
    {
        match op {
            PlainOp::Paciza => {
                self.signs_in(p, Key::IA, 0, rd);
                Ok(())
            }
            PlainOp::Autiza => self.accepts_in(p, Key::IA, 0, rd),
            PlainOp::Xpaci => {
                self.gives(rd, canonical(self.register(rd)));
                Ok(())
            }
        }
    }

    #[tactic(auto, unfolding(pa_object::specs::Effects::effect, pa_object::specs::Traps::trap_of))]
    pub(crate) fn pacga<P: Pac>(&mut self, p: &P, rd: u8, rn: u8, rm: u8)
        requires count { self.old.machine.count + 1 < 2 ^ 32 }
        requires log { length self.old.machine.log < self.old.log_limit }
        ensures { Does (P.code p.now) (instr.Pacga rd rn rm) self.old self.new }
    {
        let value = self.register(rn);
        let modifier = self.register_or_sp(rm);
        let code = generic_code(p, value, modifier);
        self.set_register(rd, code);
        self.push_sign(Key::GA, modifier, value, code);
        self.next();
    }
}
