// Answers without an event, counted between the events.
ghost use Rattle.std.specs.Prelude.{◌≡◌, ◌⊎◌, ◌++◌, ◌∷◌, [], ◌<◌, ◌+◌, ◌-◌, ℕ, true, IfErr, IfSome, OnErr, OnOk};
ghost use Rattle.replay.specs.Replay as happening;
ghost use Rattle.run_log.specs.Counts.{kind_of, numbers_in, HasFullLine, IsCounted};
ghost use Rattle.run_log.specs.Lines.{IsSaidAt, IsWidened, happenings};
ghost use Rattle.run_log.specs.Numbers.{counted};
ghost use Rattle.run_log.specs.declared.answer.HubFault.TheVariants.{NoMemory, PastNumber};

use crate::answer::HubFault;
use crate::history::Line;
use kahn_net::MAX_COUNT;
use replay::Silence;

// Where this was said since the last event or widening, if it was. So it looks at a line for each node at most.
fn find_silence(lines: &[Line], reason: Silence) -> Option<usize>
    ensures { IfSome result (λ place. IsSaidAt lines.now place reason) }
{
    let mut place = lines.len();
    while place > 0 {
        place -= 1;
        match &lines[place] {
            Line::Silent { reason: said, .. } => {
                if *said == reason {
                    return Some(place);
                }
            }
            _ => return None,
        }
    }
    None
}

// It is said there once more.
fn raise(lines: &mut Vec<Line>, place: usize, reason: Silence) -> Result<(), HubFault>
    requires { IsSaidAt lines.old.items place reason }
    ensures same { OnOk result (happenings lines.new.items ≡ happenings lines.old.items) }
    ensures counts { OnOk result ((stops : ℕ) → numbers_in lines.new.items stops
        ≡ counted (kind_of reason) (numbers_in lines.old.items stops)) }
    ensures refused { OnErr result (lines.new.items ≡ lines.old.items) }
    ensures full { IfErr result (λ fault. fault ≡ PastNumber → HasFullLine lines.old.items) }
{
    match &mut lines[place] {
        Line::Silent { count, .. } => {
            if *count >= MAX_COUNT {
                return Err(HubFault::PastNumber);
            }
            *count += 1;
            Ok(())
        }
        _ => Ok(()),
    }
}

// Counts an answer without an event: where it was given since the last event, and else in a line of its own.
fn add_silence(lines: &mut Vec<Line>, reason: Silence) -> Result<(), HubFault>
    ensures lines { OnOk result ((happenings lines.new.items ≡ happenings lines.old.items)
        ⊎ (happenings lines.new.items
        ≡ happenings lines.old.items ++ happening.Silent reason ∷ [])) }
    ensures counts { OnOk result ((stops : ℕ) → numbers_in lines.new.items stops
        ≡ counted (kind_of reason) (numbers_in lines.old.items stops)) }
    ensures refused { OnErr result (lines.new.items ≡ lines.old.items) }
    ensures full { IfErr result (λ fault. fault ≡ PastNumber → HasFullLine lines.old.items) }
{
    if let Some(place) = find_silence(lines, reason) {
        return raise(lines, place, reason);
    }
    if lines.push(Line::Silent { reason, count: 1 }).is_err() {
        return Err(HubFault::NoMemory);
    }
    Ok(())
}

// Notes that a channel got more room.
fn add_widened(lines: &mut Vec<Line>, channel: u8) -> Result<(), HubFault>
    ensures added { OnOk result (IsWidened channel lines.old.items lines.new.items) }
    ensures refused { OnErr result (lines.new.items ≡ lines.old.items) }
    ensures no_memory { IfErr result (λ fault. fault ≡ NoMemory) }
{
    if lines.push(Line::Widened(channel)).is_err() {
        return Err(HubFault::NoMemory);
    }
    Ok(())
}

/// The same, where what happens is written.
pub(crate) fn write_silence(
    lines: &mut Vec<Line>,
    keeps: bool,
    reason: Silence,
) -> Result<(), HubFault>
    ensures counted { OnOk result (keeps ≡ true → IsCounted reason lines.old.items lines.new.items) }
    ensures refused { OnErr result (lines.new.items ≡ lines.old.items) }
    ensures full { IfErr result (λ fault. fault ≡ PastNumber → HasFullLine lines.old.items) }
{
    if keeps {
        add_silence(lines, reason)?;
    }
    Ok(())
}

/// Notes that a channel got more room, where what happens is written.
pub(crate) fn write_widened(lines: &mut Vec<Line>, keeps: bool, channel: u8) -> Result<(), HubFault>
    ensures added { OnOk result (keeps ≡ true → IsWidened channel lines.old.items lines.new.items) }
    ensures refused { OnErr result (lines.new.items ≡ lines.old.items) }
    ensures no_memory { IfErr result (λ fault. fault ≡ NoMemory) }
{
    if keeps {
        add_widened(lines, channel)?;
    }
    Ok(())
}
