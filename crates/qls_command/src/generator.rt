//! Commands made from a seed.
ghost use Rattle.std.specs.Prelude.{◌≡◌, ◌≤◌, ◌<◌, ◌+◌, ◌-◌, ◌++◌, ◌/◌, ◌^◌, ◌%◌, IfOk, All, take};
ghost use Rattle.std.specs.Int.{w64};
ghost use Rattle.qls_command.specs.Within.{IsWithin};
ghost use Rattle.qls_command.specs.Generated.{generated, begun, drawn_from, first_commands, ends_open, queue_name as name_of_queue, xid_of_number, body_from};

use qls_model::{Bytes, Command, Name, NoMemory, Seq, Xid};
use std::alloc::Global;
use std::marker::Model;

/// How many queues there are, made by the first commands.
const QUEUES: u64 = 4;

/// The commands of a seed, exactly `count` of them. The first four make the queues q1 to q4; each later one is
/// drawn from the number that follows the last drawn one: a put, a take of what was put, a `list`, or a step of
/// the one open transaction. Their names, xids and bodies are within their limits.
/// `NoMemory` comes where the memory of the list or of a body was refused.
pub fn generate(alloc: Global, seed: u64, count: u64) -> Result<Seq<Command>, NoMemory>
    requires few { count ≤ 20000 }
    ensures commands { IfOk result (λ cs. cs ≡ generated seed count) }
    ensures within { IfOk result (All IsWithin) }
{
    let mut commands = first(alloc, count.min(QUEUES))?;
    draw_into(&mut commands, alloc, seed, count)?;
    Ok(commands)
}

/// The first commands, which make the queues.
fn first(alloc: Global, count: u64) -> Result<Seq<Command>, NoMemory>
    requires few { count ≤ 4 }
    ensures commands { IfOk result (λ cs. cs ≡ take count first_commands) }
{
    let mut commands = Seq::new(alloc);
    for queue in 0..count {
        let name = queue_name(queue);
        commands.push(Command::Queue { name, home: None })?;
    }
    Ok(commands)
}

/// Puts the commands from the fifth to the last at the end.
fn draw_into(
    commands: &mut Seq<Command>,
    alloc: Global,
    seed: u64,
    count: u64,
) -> Result<(), NoMemory>
    requires few { count ≤ 20000 }
    ensures drawn { IfOk result (λ _. commands.new ≡ commands.old ++ drawn_from (begun seed) 5 (count - 4)) }
{
    let mut generator = Generator::new(seed);
    for place in QUEUES + 1..count + 1 {
        let command = generator.next(alloc, place)?;
        commands.push(command)?;
    }
    Ok(())
}

/// The name of a queue, counted from 0.
fn queue_name(queue: u64) -> Name
    requires there { queue < 4 }
    ensures name { result ≡ name_of_queue (queue + 1) }
{
    Name::new(&[b'q', b'1' + queue as u8]).unwrap()
}

fn xid(number: u64) -> Xid
    ensures xid { result ≡ xid_of_number number }
{
    Xid::new(&number.to_be_bytes()).unwrap()
}

/// The body of a draw: at most 299 bytes, each one more than the byte before, modulo 256.
fn body(alloc: Global, drawn: u64) -> Result<Bytes, NoMemory>
    requires small { drawn < 2 ^ 31 }
    ensures body { IfOk result (λ b. b ≡ body_from (drawn / 32 % 300) drawn) }
{
    let size = drawn / 32 % 300;
    let mut bytes = Vec::with_capacity(alloc, size as usize)?;
    for place in 0..size {
        bytes.push(((drawn + place) % 256) as u8)?;
    }
    Ok(Bytes::from_vec(bytes))
}

/// What the commands so far leave for the next one.
#[derive(Drop)]
struct Generator {
    /// The number that was drawn last, at first the seed.
    number: u64,
    /// How many messages were put into each queue.
    puts: [u64; 4],
    /// How many messages were taken from each queue.
    takes: [u64; 4],
    /// The number of the open transaction.
    open_number: Option<u64>,
}

impl Model for Generator {
    ghost use Rattle.qls_command.specs.Generated.{Drawn};

    ghost Value = { Drawn };

    ghost view = { λ a. record { x = a.number; puts = a.puts; takes = a.takes; open_number = a.open_number } };
}

impl Generator {
    ghost use Rattle.qls_command.specs.Generated.{with_next_number, drawn_command, puts_one, takes_one, begins, lists_or_ends, AllAtMost};

    fn new(seed: u64) -> Generator
        ensures begun { result ≡ begun seed }
    {
        Generator {
            number: seed,
            puts: [0; 4],
            takes: [0; 4],
            open_number: None,
        }
    }

    /// Draws the next number, and makes the command at this place, counted from 1.
    fn next(&mut self, alloc: Global, place: u64) -> Result<Command, NoMemory>
        requires counts { AllAtMost 20000 self.old.puts }
        ensures command { IfOk result (λ c. let d = with_next_number self.old in (c, self.new) ≡ drawn_command d place (d.x / 2 ^ 33)) }
    {
        let drawn = self.draw();
        self.command(alloc, place, drawn)
    }

    /// Goes on to the next number; answers its upper 31 bits.
    fn draw(&mut self) -> u64
        ensures number { self.new ≡ with_next_number self.old }
        ensures drawn { result ≡ self.new.x / 2 ^ 33 }
        ensures small { result < 2 ^ 31 }
    {
        self.number = self
            .number
            .wrapping_mul(6_364_136_223_846_793_005)
            .wrapping_add(1_442_695_040_888_963_407);
        self.number >> 33
    }

    /// The command at this place that a draw makes.
    fn command(&mut self, alloc: Global, place: u64, drawn: u64) -> Result<Command, NoMemory>
        requires small { drawn < 2 ^ 31 }
        requires counts { AllAtMost 20000 self.old.puts }
        ensures command { IfOk result (λ c. (c, self.new) ≡ drawn_command self.old place drawn) }
    {
        match drawn / 4 % 8 {
            0..=3 => self.put(alloc, drawn, None),
            4 => self.begin_or_put(alloc, place, drawn),
            5 | 6 => self.take_or_put(alloc, drawn),
            _ => Ok(self.list_or_end(drawn)),
        }
    }

    fn put(&mut self, alloc: Global, drawn: u64, xid: Option<Xid>) -> Result<Command, NoMemory>
        requires small { drawn < 2 ^ 31 }
        requires counts { AllAtMost 20000 self.old.puts }
        ensures command { IfOk result (λ c. (c, self.new) ≡ puts_one self.old (drawn % 4) drawn xid) }
    {
        let body = body(alloc, drawn)?;
        let queue = drawn % 4;
        self.puts[queue as usize] += 1;
        let name = queue_name(queue);
        Ok(Command::Put { name, body, xid })
    }

    fn begin_or_put(&mut self, alloc: Global, place: u64, drawn: u64) -> Result<Command, NoMemory>
        requires small { drawn < 2 ^ 31 }
        requires counts { AllAtMost 20000 self.old.puts }
        ensures command { IfOk result (λ c. (c, self.new) ≡ begins self.old place (drawn % 4) drawn self.old.open_number) }
    {
        match self.open_number {
            None => {
                self.open_number = Some(place);
                Ok(Command::Begin { xid: xid(place) })
            }
            Some(number) => self.put(alloc, drawn, Some(xid(number))),
        }
    }

    fn take_or_put(&mut self, alloc: Global, drawn: u64) -> Result<Command, NoMemory>
        requires small { drawn < 2 ^ 31 }
        requires counts { AllAtMost 20000 self.old.puts }
        ensures command { IfOk result (λ c. (c, self.new) ≡ takes_one self.old (drawn % 4) drawn) }
    {
        let queue = drawn % 4;
        let taken = self.takes[queue as usize];
        if taken >= self.puts[queue as usize] {
            return self.put(alloc, drawn, None);
        }
        self.takes[queue as usize] = taken + 1;
        Ok(Command::Take {
            name: queue_name(queue),
            number: taken + 1,
            xid: None,
        })
    }

    fn list_or_end(&mut self, drawn: u64) -> Command
        ensures command { (result, self.new) ≡ lists_or_ends self.old (drawn % 4) drawn self.old.open_number }
    {
        match self.open_number {
            None => Command::List {
                name: queue_name(drawn % 4),
            },
            Some(number) => {
                self.open_number = None;
                end(drawn / 32 % 4, xid(number))
            }
        }
    }
}

/// The end of a transaction by a number of two bits.
fn end(choice: u64, xid: Xid) -> Command
    ensures command { result ≡ ends_open choice xid }
{
    match choice {
        0 => Command::Abort { xid },
        1 => Command::Prepare { xid },
        _ => Command::Commit { xid },
    }
}
