//! The machine's state, and one step of it.
ghost use Rattle.std.specs.Prelude.{◌≡◌, ◌<◌, ℕ, Some, None, IfSome, IfNone, replicate};
ghost use Rattle.sx_rv_machine.specs.Memory.{bytes_at, readable};
ghost use Rattle.sx_rv_machine.specs.Sizes.{IsSize, MovesSize};
ghost use Rattle.sx_rv_machine.specs.State.{register, with_register};
ghost use Rattle.sx_rv_machine.specs.Step.{told, ended, faulted, advanced, jumped, branched, loaded_from, stored_at, may_write, called, taken, carried_out, instruction, step_of};

use crate::memory::{
    EXECUTABLE, MemoryArea, READABLE, bytes_at, is_aligned, loaded_value, put_number, word,
};
use std::marker::Model;
use sx_rv_isa::{Effect, Instr, MachineKind, decode, execute};

/// How a run has ended.
#[derive(Clone, Copy, Debug, PartialEq, Eq)]
pub enum Ending {
    /// The program has exited with this status.
    Exits(u8),
    /// The instruction at this address could not be carried out.
    Faults(MachineKind, u64),
}

/// What a step has done.
#[derive(Clone, Copy, Debug, PartialEq, Eq)]
pub enum Event {
    /// An instruction was carried out.
    Went,
    /// An instruction was carried out that writes `length` bytes, those of the memory from `address` on, to output
    /// `fd`, 1 or 2.
    Wrote { fd: u8, address: u64, length: u64 },
    /// The program has exited, in this step or earlier.
    Exited(u8),
    /// The instruction at this address could not be carried out, in this step or earlier.
    Faulted(MachineKind, u64),
}

/// A machine in some state: registers, memory, the place of the next instruction, and how its run has ended, if it has.
#[derive(Drop)]
pub struct Machine {
    registers: [u64; 32],
    areas: Vec<MemoryArea>,
    pc: u64,
    ending: Option<Ending>,
}

impl Model for Machine {
    ghost use Rattle.sx_rv_machine.specs.State.{State};

    ghost Value = { State };

    ghost view = { λ m. record { registers = m.registers; memory = m.areas.items; pc = m.pc; ending = m.ending } };
}

/// One step: carries out the instruction at the pc. A machine whose run has ended answers how, and stays.
#[inline]
pub fn step(machine: &mut Machine) -> Event
    ensures state { machine.new ≡ (step_of machine.old).state }
    ensures event { result ≡ (step_of machine.old).event }
{
    match machine.ending {
        Some(ending) => event_of(ending),
        None => machine.instruction(),
    }
}

/// The address of the next instruction, and after a fault that of the faulting one.
pub fn pc(machine: &Machine) -> u64
    ensures { result ≡ machine.now.pc }
{
    machine.pc
}

fn event_of(ending: Ending) -> Event
    ensures { result ≡ told ending }
{
    match ending {
        Ending::Exits(status) => Event::Exited(status),
        Ending::Faults(kind, pc) => Event::Faulted(kind, pc),
    }
}

impl Machine {
    /// A machine that has taken no step yet: all registers are 0.
    pub(crate) fn at_start(areas: Vec<MemoryArea>, entry: u64) -> Machine
        ensures { result ≡ record { registers = replicate 32 0; memory = areas.items; pc = entry; ending = None } }
    {
        Machine {
            registers: [0; 32],
            areas,
            pc: entry,
            ending: None,
        }
    }

    /// How the run has ended, if it has.
    pub(crate) fn ending(&self) -> Option<Ending>
        ensures { result ≡ self.now.ending }
    {
        self.ending
    }

    /// The bytes from an address on, where they can be read.
    pub(crate) fn readable(&self, address: u64, length: u64) -> Option<&[u8]>
        ensures some { IfSome result (λ bytes. bytes_at self.now.memory readable address length ≡ Some bytes.now) }
        ensures none { IfNone result (bytes_at self.now.memory readable address length ≡ None) }
    {
        bytes_at(&self.areas, READABLE, address, length as usize)
    }

    #[inline]
    fn register(&self, number: u8) -> u64
        requires { number < 32 }
        ensures { result ≡ register self.now number }
    {
        self.registers[number as usize]
    }

    /// Writes a register; x0 stays 0.
    #[inline]
    fn set_register(&mut self, number: u8, value: u64)
        requires { number < 32 }
        ensures { self.new ≡ with_register self.old number value }
    {
        if number != 0 {
            self.registers[number as usize] = value;
        }
    }

    /// Goes to the next instruction.
    #[inline]
    fn advance(&mut self)
        ensures { self.new ≡ advanced self.old }
    {
        self.pc = self.pc.wrapping_add(4);
    }

    fn end(&mut self, ending: Ending) -> Event
        ensures state { self.new ≡ (ended self.old ending).state }
        ensures event { result ≡ (ended self.old ending).event }
    {
        self.ending = Some(ending);
        event_of(ending)
    }

    /// Ends the run with a fault of the instruction at the pc.
    fn fault(&mut self, kind: MachineKind) -> Event
        ensures state { self.new ≡ (faulted self.old kind).state }
        ensures event { result ≡ (faulted self.old kind).event }
    {
        let pc = self.pc;
        self.end(Ending::Faults(kind, pc))
    }

    #[inline]
    fn jump(&mut self, destination: u8, target: u64, link: u64) -> Event
        requires { destination < 32 }
        ensures state { self.new ≡ (jumped self.old destination target link).state }
        ensures event { result ≡ (jumped self.old destination target link).event }
    {
        if !is_aligned(target, 4) {
            return self.fault(MachineKind::JumpMisaligned);
        }
        self.set_register(destination, link);
        self.pc = target;
        Event::Went
    }

    #[inline]
    fn branch(&mut self, target: u64) -> Event
        ensures state { self.new ≡ (branched self.old target).state }
        ensures event { result ≡ (branched self.old target).event }
    {
        if !is_aligned(target, 4) {
            return self.fault(MachineKind::JumpMisaligned);
        }
        self.pc = target;
        Event::Went
    }

    #[inline]
    fn load_from(&mut self, destination: u8, address: u64, size: u8, signed: bool) -> Event
        requires register { destination < 32 }
        requires size { IsSize size }
        ensures state { self.new ≡ (loaded_from self.old destination address size signed).state }
        ensures event { result ≡ (loaded_from self.old destination address size signed).event }
    {
        if !is_aligned(address, size) {
            return self.fault(MachineKind::LoadMisaligned);
        }
        match bytes_at(&self.areas, READABLE, address, size as usize) {
            None => self.fault(MachineKind::LoadOutside),
            Some(bytes) => {
                let value = loaded_value(bytes, signed);
                self.set_register(destination, value);
                self.advance();
                Event::Went
            }
        }
    }

    #[inline]
    fn store_at(&mut self, address: u64, size: u8, value: u64) -> Event
        requires { IsSize size }
        ensures state { self.new ≡ (stored_at self.old address size value).state }
        ensures event { result ≡ (stored_at self.old address size value).event }
    {
        if !is_aligned(address, size) {
            return self.fault(MachineKind::StoreMisaligned);
        }
        if !put_number(&mut self.areas, address, size, value) {
            return self.fault(MachineKind::StoreOutside);
        }
        self.advance();
        Event::Went
    }

    /// Whether the arguments of an environment call are those of a write.
    fn may_write(&self) -> bool
        ensures { result ≡ may_write self.now }
    {
        let fd = self.register(10);
        let address = self.register(11);
        let length = self.register(12);
        (fd == 1 || fd == 2) && (length == 0 || self.readable(address, length).is_some())
    }

    /// Carries out an environment call: the number is in a7, the arguments are in a0 to a2.
    fn call(&mut self) -> Event
        ensures state { self.new ≡ (called self.old).state }
        ensures event { result ≡ (called self.old).event }
    {
        let number = self.register(17);
        let first = self.register(10);
        if number == 93 {
            return self.end(Ending::Exits((first % 256) as u8));
        }
        if number == 64 && self.may_write() {
            let address = self.register(11);
            let length = self.register(12);
            self.set_register(10, length);
            self.advance();
            return Event::Wrote {
                fd: first as u8,
                address,
                length,
            };
        }
        self.fault(MachineKind::Environment)
    }

    /// Does to the machine what an effect says, where `destination` is the instruction's rd.
    #[inline]
    fn take(&mut self, destination: u8, effect: Effect) -> Event
        requires register { destination < 32 }
        requires size { MovesSize effect }
        ensures state { self.new ≡ (taken self.old destination effect).state }
        ensures event { result ≡ (taken self.old destination effect).event }
    {
        match effect {
            Effect::Value(value) => {
                self.set_register(destination, value);
                self.advance();
                Event::Went
            }
            Effect::Jump { target, link } => self.jump(destination, target, link),
            Effect::Branch(target) => self.branch(target),
            Effect::Next => {
                self.advance();
                Event::Went
            }
            Effect::Load {
                address,
                bytes,
                signed,
            } => self.load_from(destination, address, bytes, signed),
            Effect::Store {
                address,
                bytes,
                value,
            } => self.store_at(address, bytes, value),
            Effect::Environment => self.call(),
            Effect::Breakpoint => self.fault(MachineKind::Breakpoint),
        }
    }

    #[inline]
    fn carry_out(&mut self, instr: &Instr) -> Event
        ensures state { self.new ≡ (carried_out self.old instr.now).state }
        ensures event { result ≡ (carried_out self.old instr.now).event }
    {
        let first = self.register(instr.first_source());
        let second = self.register(instr.second_source());
        let effect = execute(instr, self.pc, first, second);
        self.take(instr.destination(), effect)
    }

    /// Carries out the instruction at the pc.
    #[inline]
    fn instruction(&mut self) -> Event
        ensures state { self.new ≡ (instruction self.old).state }
        ensures event { result ≡ (instruction self.old).event }
    {
        if !is_aligned(self.pc, 4) {
            return self.fault(MachineKind::FetchMisaligned);
        }
        let Some(bytes) = bytes_at(&self.areas, EXECUTABLE, self.pc, 4) else {
            return self.fault(MachineKind::FetchOutside);
        };
        match decode(word(bytes)) {
            None => self.fault(MachineKind::Illegal),
            Some(instr) => self.carry_out(&instr),
        }
    }
}
