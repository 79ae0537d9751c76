//! The command line: the command's word, and behind it its options in any order, each at most once.
ghost use Rattle.std.specs.Prelude.{codes, ◌≡◌, ◌≢◌, ◌≤◌, ℕ, None, Some, map, MatchOption, MatchResult, MatchBool, IfOk};
ghost use Rattle.run_words.specs.Options.{texts};
ghost use Rattle.swarm_gen.specs.Plans.{IsFrom};
ghost use Rattle.run_words.specs.Words.{IsInterval, IsPick, HasNoSwarms, HasNoStops, MeansSwarm, command_word, Means, Says};

pub use crate::options::Usage;
use crate::options::{Options, read_options};
use swarm_gen::Plan;

/// What the command line asks for.
#[derive(Clone, Copy, Debug, PartialEq, Eq)]
pub enum Words {
    /// Runs a script that is read.
    Replay {
        interval: u32,
        quiet: bool,
        dump: bool,
    },
    /// Makes a script from a plan and runs it.
    Swarm {
        plan: Plan,
        quiet: bool,
        dump: bool,
    },
    /// Runs a script that is read on disks that stop after so many changing calls, and opens again what they are left with, by pick.
    Stop {
        at: u64,
        pick: u8,
        interval: u32,
        quiet: bool,
    },
}

/// The interval of rotations where none is given.
const INTERVAL: u64 = 256;

/// The number as 32 bits, where it lies in the range.
fn within(n: u64, least: u32, most: u32) -> Result<u32, Usage>
    ensures { MatchResult result (λ m. (m ≡ n) × IsFrom least most n) (λ _. IsFrom least most n → ⊥) }
{
    if n < u64::from(least) || n > u64::from(most) {
        return Err(Usage);
    }
    Ok(n as u32)
}

/// A number that has to be given, within its range.
fn given(n: Option<u64>, least: u32, most: u32) -> Result<u32, Usage>
    ensures { MatchResult result (λ m. (n ≡ Some m) × IsFrom least most m) (λ _. (m : ℕ) → n ≡ Some m → IsFrom least most m → ⊥) }
{
    match n {
        Some(n) => within(n, least, most),
        None => Err(Usage),
    }
}

/// The interval, or the one that stands where none is given.
fn interval(options: &Options) -> Result<u32, Usage>
    ensures { MatchResult result (IsInterval options.now) (λ _. (n : ℕ) → IsInterval options.now n → ⊥) }
{
    within(options.interval.unwrap_or(INTERVAL), 1, u32::MAX)
}

/// The pick, or the one that stands where none is given.
fn pick(options: &Options) -> Result<u8, Usage>
    ensures { MatchResult result (IsPick options.now) (λ _. (n : ℕ) → IsPick options.now n → ⊥) }
{
    Ok(within(options.pick.unwrap_or(0), 0, 2)? as u8)
}

/// Whether an option is given that the swarm alone has.
fn has_swarms(options: &Options) -> bool
    ensures { MatchBool result (HasNoSwarms options.now → ⊥) (HasNoSwarms options.now) }
{
    options.number.is_some()
        || options.ledgers.is_some()
        || options.items.is_some()
        || options.liars.is_some()
        || options.actors.is_some()
}

/// Whether an option is given that the stop alone has.
fn has_stops(options: &Options) -> bool
    ensures { MatchBool result (HasNoStops options.now → ⊥) (HasNoStops options.now) }
{
    options.at.is_some() || options.pick.is_some()
}

/// The values of `replay`.
fn replay(options: &Options) -> Result<Words, Usage>
    ensures { MatchResult result
        (λ w. (command_word w ≡ codes "replay") × Means options.now w)
        (λ _. (w : Words) → command_word w ≡ codes "replay" → Means options.now w → ⊥) }
{
    if has_swarms(options) || has_stops(options) {
        return Err(Usage);
    }
    Ok(Words::Replay {
        interval: interval(options)?,
        quiet: options.quiet,
        dump: options.dump,
    })
}

/// The plan of a swarm.
fn plan(options: &Options) -> Result<Plan, Usage>
    ensures { MatchResult result (MeansSwarm options.now) (λ _. (p : Plan) → MeansSwarm options.now p → ⊥) }
{
    if has_stops(options) {
        return Err(Usage);
    }
    Ok(Plan {
        number: options.number.ok_or(Usage)?,
        ledgers: given(options.ledgers, 1, 200)?,
        items: given(options.items, 1, 10_000)?,
        liars: given(options.liars, 0, 7)?,
        actors: given(options.actors, 3, 64)? as u8,
        interval: interval(options)?,
    })
}

/// The values of `swarm`.
fn swarm(options: &Options) -> Result<Words, Usage>
    ensures { MatchResult result
        (λ w. (command_word w ≡ codes "swarm") × Means options.now w)
        (λ _. (w : Words) → command_word w ≡ codes "swarm" → Means options.now w → ⊥) }
{
    Ok(Words::Swarm {
        plan: plan(options)?,
        quiet: options.quiet,
        dump: options.dump,
    })
}

/// The values of `stop`.
fn stop(options: &Options) -> Result<Words, Usage>
    ensures { MatchResult result
        (λ w. (command_word w ≡ codes "stop") × Means options.now w)
        (λ _. (w : Words) → command_word w ≡ codes "stop" → Means options.now w → ⊥) }
{
    if has_swarms(options) || options.dump {
        return Err(Usage);
    }
    Ok(Words::Stop {
        at: options.at.ok_or(Usage)?,
        pick: pick(options)?,
        interval: interval(options)?,
        quiet: options.quiet,
    })
}

/// The values that the words behind the program's name say. `Usage` comes exactly where they are outside
/// the grammar; an option that isn't given has its default. It takes no memory.
pub fn read_words(words: &[&str]) -> Result<Words, Usage>
    ensures says { MatchResult result (Says (texts words.now)) (λ _. (w : Words) → Says (texts words.now) w → ⊥) }
    ensures only { IfOk result (λ w. (v : Words) → Says (texts words.now) v → v ≡ w) }
{
    let Some((command, options)) = words.split_first() else {
        return Err(Usage);
    };
    match *command {
        "replay" => replay(&read_options(options)?),
        "swarm" => swarm(&read_options(options)?),
        "stop" => stop(&read_options(options)?),
        _ => Err(Usage),
    }
}

#[cfg(test)]
mod tests {
    use super::*;

    const SWARM: Plan = Plan {
        number: 7,
        ledgers: 3,
        items: 10,
        liars: 0,
        actors: 3,
        interval: 256,
    };

    #[test]
    fn command_lines(rt: HostRuntime) {
        let replay = Words::Replay {
            interval: 4,
            quiet: true,
            dump: false,
        };
        assert_eq!(rt;
            read_words(&["replay", "--interval=0004", "--quiet"]),
            Ok(replay)
        );
        let swarm = Words::Swarm {
            plan: SWARM,
            quiet: true,
            dump: false,
        };
        let words = [
            "swarm",
            "--number",
            "7",
            "--ledgers=3",
            "--items",
            "10",
            "--liars",
            "0",
            "--quiet",
            "--actors",
            "3",
        ];
        assert_eq!(rt; read_words(&words), Ok(swarm));
        let stop = Words::Stop {
            at: 7,
            pick: 2,
            interval: 256,
            quiet: false,
        };
        assert_eq!(rt; read_words(&["stop", "--pick", "2", "--at=7"]), Ok(stop));
        let last = Words::Stop {
            at: u64::MAX,
            pick: 0,
            interval: 4,
            quiet: true,
        };
        let words = [
            "stop",
            "--quiet",
            "--at",
            "18446744073709551615",
            "--interval=4",
        ];
        assert_eq!(rt; read_words(&words), Ok(last));
    }

    #[test]
    fn other_words(rt: HostRuntime) {
        assert_eq!(rt; read_words(&[]), Err(Usage));
        assert_eq!(rt; read_words(&["replay", "--quiet", "--quiet"]), Err(Usage));
        assert_eq!(rt; read_words(&["replay", "--", "--quiet"]), Err(Usage));
        assert_eq!(rt; read_words(&["swarm", "--number", "1"]), Err(Usage));
        assert_eq!(rt; read_words(&["replay", "--interval", "+4"]), Err(Usage));
        assert_eq!(rt; read_words(&["replay", "--interval=0"]), Err(Usage));
        assert_eq!(rt; read_words(&["replay", "--help"]), Err(Usage));
    }

    #[test]
    fn a_stop_has_its_own_options(rt: HostRuntime) {
        let refused: [&[&str]; 23] = [
            &["stop"],
            &["stop", "--at"],
            &["stop", "--pick", "1"],
            &["stop", "--at", "1", "--at=1"],
            &["stop", "--at", "18446744073709551616"],
            &["stop", "--at=-1"],
            &["stop", "--at", "1", "--pick", "3"],
            &["stop", "--at", "1", "--pick=256"],
            &["stop", "--at", "1", "--pick", "1", "--pick", "1"],
            &["stop", "--at", "1", "--interval=0"],
            &["stop", "--at", "1", "--interval=4294967296"],
            &["stop", "--at", "1", "--quiet", "--quiet"],
            &["stop", "--at", "1", "--dump"],
            &["stop", "--at", "1", "--number", "1"],
            &["stop", "--at", "1", "--ledgers", "1"],
            &["stop", "--at", "1", "--items", "1"],
            &["stop", "--at", "1", "--liars", "1"],
            &["stop", "--at", "1", "--actors", "3"],
            &["--at", "1", "stop"],
            &["replay", "--at", "1"],
            &["replay", "--pick", "1"],
            &[
                "swarm",
                "--number=7",
                "--ledgers=3",
                "--items=10",
                "--liars=0",
                "--actors=3",
                "--at=1",
            ],
            &[
                "swarm",
                "--number=7",
                "--ledgers=3",
                "--items=10",
                "--liars=0",
                "--actors=3",
                "--pick=1",
            ],
        ];
        for words in refused {
            assert_eq!(rt; read_words(words), Err(Usage), "at {words:?}");
        }
    }
}
