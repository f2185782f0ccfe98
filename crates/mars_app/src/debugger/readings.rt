//! The replies to commands that change nothing.
ghost use Rattle.std.specs.Prelude.{◌≡◌, ◌<◌, ◌≤◌, ◌++◌, codes, OnOk, OnErr};
ghost use Rattle.std.specs.Io.KnownBytes.{Appends};
ghost use Rattle.std.specs.List.{flat_map};
ghost use Rattle.mars_cell.specs.Output.{CutShort};
ghost use Rattle.mars_core.specs.State.{cell_at, queue_of};
ghost use Rattle.arrayvec.specs.ArrayString.{array_string_len};
ghost use Rattle.mars_app.specs.Debugger.Replies.{refusal_text};
ghost use Rattle.mars_app.specs.Debugger.Readings.{cell_line, line_at, list_text, max_listed, texts, queue_text, queue_head, process_text, warrior_text, life_text, death_of, show_text, end_text};

use crate::debugger::pending::PendingText;
use crate::debugger::replies::{fixed, refusal_line, standing_line};
use mars_cell::{Line, WriteFault, numbered, push_number, write_text};
use mars_core::{Battle, Death};
use mars_session::{Refusal, Standing};
use std::io::Write;

/// Writes the refusal of a command.
fn write_refusal<W: Write>(writer: &mut W, refusal: Refusal) -> Result<(), WriteFault>
    ensures ok { OnOk result (Appends (W.contents writer.old) (W.contents writer.new) (refusal_text refusal)) }
    ensures err { OnErr result (CutShort (W.contents writer.old) (W.contents writer.new) (refusal_text refusal)) }
{
    write_text(writer, refusal_line(refusal).as_str().as_bytes())
}

/// Returns the line of the cell at an address.
fn cell_line(battle: &Battle, address: u32) -> Line
    requires { address < battle.now.params.core_size }
    ensures { result.bytes ≡ cell_line battle.now.params.core_size address (cell_at battle.now.core address) }
{
    let core_size = battle.params().core_size();
    let cell = battle.cell(address).unwrap();
    let mut line = numbered("", u64::from(address), " ");
    line.push_str(cell.text(core_size).as_str());
    line.push_str("\n");
    line
}

/// Writes the lines of `count` cells from `address` on, modulo the core size.
fn write_cells<W: Write>(
    writer: &mut W,
    battle: &Battle,
    address: u64,
    count: u64,
) -> Result<(), WriteFault>
    requires address { address < battle.now.params.core_size }
    requires count { count ≤ max_listed }
    ensures ok { OnOk result (Appends (W.contents writer.old) (W.contents writer.new) (texts (line_at battle.now address) count)) }
    ensures err { OnErr result (CutShort (W.contents writer.old) (W.contents writer.new) (texts (line_at battle.now address) count)) }
{
    let core_size = u64::from(battle.params().core_size());
    let mut pending = PendingText::new();
    for i in 0..count {
        let there = (address + i) % core_size;
        match pending.push(writer, &cell_line(battle, there as u32)) {
            Ok(()) => {}
            Err(fault) => return Err(fault),
        }
    }
    pending.write(writer)
}

/// Maximum number of cells of one list.
const MAX_LISTED: u64 = 1_000_000;

/// Writes `count` cells from `address` on, modulo the core size, or a refusal.
#[tactic(auto, unfolding(crate::specs::Debugger::Readings::list_text))]
pub fn write_list<W: Write>(
    writer: &mut W,
    battle: &Battle,
    address: u64,
    count: u64,
) -> Result<(), WriteFault>
    ensures ok { OnOk result (Appends (W.contents writer.old) (W.contents writer.new) (list_text battle.now address count)) }
    ensures err { OnErr result (CutShort (W.contents writer.old) (W.contents writer.new) (list_text battle.now address count)) }
{
    if count == 0 || count > MAX_LISTED {
        return write_refusal(writer, Refusal::Count);
    }
    if address >= u64::from(battle.params().core_size()) {
        return write_refusal(writer, Refusal::Address);
    }
    write_cells(writer, battle, address, count)
}

/// Returns a space and an address.
fn process_part(address: u32) -> Line
    ensures { result.bytes ≡ process_text address }
{
    numbered(" ", u64::from(address), "")
}

/// Writes the addresses of a warrior's processes on one line, the front first.
fn write_processes<W: Write>(
    writer: &mut W,
    battle: &Battle,
    warrior: usize,
) -> Result<(), WriteFault>
    ensures ok { OnOk result (Appends (W.contents writer.old) (W.contents writer.new)
        (queue_head warrior ++ (flat_map process_text (queue_of battle.now.queues warrior) ++ codes "\n"))) }
    ensures err { OnErr result (CutShort (W.contents writer.old) (W.contents writer.new)
        (queue_head warrior ++ (flat_map process_text (queue_of battle.now.queues warrior) ++ codes "\n"))) }
{
    let mut pending = PendingText::of(&numbered("queue ", warrior as u64, ":"));
    for place in 0..battle.queue_len(warrior) {
        let address = battle.process(warrior, place).unwrap();
        match pending.push(writer, &process_part(address)) {
            Ok(()) => {}
            Err(fault) => return Err(fault),
        }
    }
    pending.finish(writer, &fixed("\n"))
}

/// Writes the addresses of a warrior's processes, the front first, or a refusal.
#[tactic(auto, unfolding(crate::specs::Debugger::Readings::queue_text))]
pub fn write_queue<W: Write>(
    writer: &mut W,
    battle: &Battle,
    warrior: u64,
) -> Result<(), WriteFault>
    ensures ok { OnOk result (Appends (W.contents writer.old) (W.contents writer.new) (queue_text battle.now warrior)) }
    ensures err { OnErr result (CutShort (W.contents writer.old) (W.contents writer.new) (queue_text battle.now warrior)) }
{
    if warrior >= battle.warriors() as u64 {
        return write_refusal(writer, Refusal::NoSuchWarrior);
    }
    write_processes(writer, battle, warrior as usize)
}

/// Returns the death of a warrior, or `None` if it is alive.
fn find_death(deaths: &[Death], warrior: usize) -> Option<Death>
    ensures { result ≡ death_of deaths.now warrior }
{
    deaths
        .iter()
        .copied()
        .find(|death| death.warrior as usize == warrior)
}

/// Appends the number of a warrior's processes, or the turn of its death.
fn push_life(line: &mut Line, battle: &Battle, warrior: usize)
    requires { array_string_len line.old < 100 }
    ensures bytes { line.new.bytes ≡ line.old.bytes ++ life_text (queue_of battle.now.queues warrior) (death_of battle.now.deaths warrior) }
    ensures len { array_string_len line.new < 150 }
{
    match find_death(battle.deaths(), warrior) {
        Some(death) => {
            line.push_str(" dead ");
            push_number(line, u64::from(death.turns));
        }
        None => {
            line.push_str(" processes ");
            push_number(line, battle.queue_len(warrior) as u64);
        }
    }
}

/// Returns a warrior's number with the number of its processes, or with the turn of its death.
#[tactic(auto, unfolding(crate::specs::Debugger::Readings::warrior_text))]
fn warrior_line(battle: &Battle, warrior: usize) -> Line
    ensures { result.bytes ≡ warrior_text battle.now warrior }
{
    let mut line = numbered("warrior ", warrior as u64, "");
    push_life(&mut line, battle, warrior);
    line.push_str("\n");
    line
}

/// Returns the line that says whether the battle is over.
fn end_line(battle: &Battle) -> Line
    ensures { result.bytes ≡ end_text battle.now }
{
    if battle.is_over() {
        fixed("battle over\n")
    } else {
        fixed("battle running\n")
    }
}

/// Writes the standing, each warrior, and whether the battle is over.
#[tactic(auto, unfolding(crate::specs::Debugger::Readings::show_text))]
pub fn write_show<W: Write>(
    writer: &mut W,
    standing: Standing,
    battle: &Battle,
) -> Result<(), WriteFault>
    ensures ok { OnOk result (Appends (W.contents writer.old) (W.contents writer.new) (show_text standing battle.now)) }
    ensures err { OnErr result (CutShort (W.contents writer.old) (W.contents writer.new) (show_text standing battle.now)) }
{
    let mut pending = PendingText::of(&standing_line(standing));
    for warrior in 0..battle.warriors() {
        match pending.push(writer, &warrior_line(battle, warrior)) {
            Ok(()) => {}
            Err(fault) => return Err(fault),
        }
    }
    pending.finish(writer, &end_line(battle))
}
