//! The options behind a command. A word at a time is read: behind a setting without `=` the next word
//! is its number.
ghost use Rattle.std.specs.Prelude.{◌≡◌, ◌↔◌, ◌∷◌, ℕ, List, [], None, Some, length, map, true, false, option_map, IsTrue};
ghost use Rattle.std.specs.Prelude.{MatchOption, MatchResult, OnOk, OnErr};
ghost use Rattle.script_form.specs.Words.{IsNumber};
ghost use Rattle.run_words.specs.Options.{name_word, number_of, with_number, is_on, switched_on, no_options, most_number};
ghost use Rattle.run_words.specs.Options.{cut_of, Gives, texts, pending};
ghost use Rattle.ledger_spec.specs.Bytes.{Bytes};

use script_form::number;

/// An option with a number, `--number` and so on.
#[derive(Clone, Copy)]
pub enum Setting {
    Number,
    Ledgers,
    Items,
    Liars,
    Actors,
    Interval,
    At,
    Pick,
}

/// An option without a number, `--quiet` and `--dump`.
#[derive(Clone, Copy)]
pub enum Switch {
    Quiet,
    Dump,
}

/// An option.
#[derive(Clone, Copy)]
pub enum Name {
    Setting(Setting),
    Switch(Switch),
}

/// The options that are given.
#[derive(Clone, Copy)]
pub struct Options {
    pub number: Option<u64>,
    pub ledgers: Option<u64>,
    pub items: Option<u64>,
    pub liars: Option<u64>,
    pub actors: Option<u64>,
    pub interval: Option<u64>,
    pub at: Option<u64>,
    pub pick: Option<u64>,
    pub quiet: bool,
    pub dump: bool,
}

/// Words that are outside the grammar.
#[derive(Clone, Copy, Debug, PartialEq, Eq)]
pub struct Usage;

impl Options {
    /// No option.
    fn none() -> Options
        ensures { result ≡ no_options }
    {
        Options {
            number: None,
            ledgers: None,
            items: None,
            liars: None,
            actors: None,
            interval: None,
            at: None,
            pick: None,
            quiet: false,
            dump: false,
        }
    }

    /// The place of a setting's number.
    fn number(&self, setting: Setting) -> Option<u64>
        ensures { result ≡ number_of self.now setting }
    {
        match setting {
            Setting::Number => self.number,
            Setting::Ledgers => self.ledgers,
            Setting::Items => self.items,
            Setting::Liars => self.liars,
            Setting::Actors => self.actors,
            Setting::Interval => self.interval,
            Setting::At => self.at,
            Setting::Pick => self.pick,
        }
    }

    /// Gives a setting its number.
    fn put(&mut self, setting: Setting, n: u64)
        ensures { self.new ≡ with_number self.old setting n }
    {
        match setting {
            Setting::Number => self.number = Some(n),
            Setting::Ledgers => self.ledgers = Some(n),
            Setting::Items => self.items = Some(n),
            Setting::Liars => self.liars = Some(n),
            Setting::Actors => self.actors = Some(n),
            Setting::Interval => self.interval = Some(n),
            Setting::At => self.at = Some(n),
            Setting::Pick => self.pick = Some(n),
        }
    }

    /// Sets a number that isn't given yet.
    fn set(&mut self, setting: Setting, digits: &[u8]) -> Result<(), Usage>
        ensures { MatchResult result
            (λ _. (n : ℕ) × IsNumber digits.now most_number n × (number_of self.old setting ≡ None)
            × (self.new ≡ with_number self.old setting n))
            (λ _. (n : ℕ) → IsNumber digits.now most_number n → number_of self.old setting ≡ None → ⊥) }
    {
        let n = number(digits, u64::MAX).ok_or(Usage)?;
        if self.number(setting).is_some() {
            return Err(Usage);
        }
        self.put(setting, n);
        Ok(())
    }

    /// Whether a switch is on.
    fn is_on(&self, switch: Switch) -> bool
        ensures { result ≡ is_on self.now switch }
    {
        match switch {
            Switch::Quiet => self.quiet,
            Switch::Dump => self.dump,
        }
    }

    /// Turns a switch on that isn't on yet.
    fn turn_on(&mut self, switch: Switch) -> Result<(), Usage>
        ensures { MatchResult result
            (λ _. (is_on self.old switch ≡ false) × (self.new ≡ switched_on self.old switch))
            (λ _. is_on self.old switch ≡ true) }
    {
        if self.is_on(switch) {
            return Err(Usage);
        }
        match switch {
            Switch::Quiet => self.quiet = true,
            Switch::Dump => self.dump = true,
        }
        Ok(())
    }
}

/// What stands before the first `=`, and what stands behind it.
fn cut(word: &str) -> (&str, Option<&str>)
    ensures { cut_of word.now ≡ (result.0.now, option_map (λ d. d.now) result.1) }
{
    match word.split_once('=') {
        Some((name, digits)) => (name, Some(digits)),
        None => (word, None),
    }
}

/// The option of this name.
fn named(name: &str) -> Option<Name>
    ensures is { MatchOption result ((n : Name) → name.now ≡ name_word n → ⊥) (λ n. name.now ≡ name_word n) }
    ensures only { (n : Name) → name.now ≡ name_word n → result ≡ Some n }
{
    match name {
        "--number" => Some(Name::Setting(Setting::Number)),
        "--ledgers" => Some(Name::Setting(Setting::Ledgers)),
        "--items" => Some(Name::Setting(Setting::Items)),
        "--liars" => Some(Name::Setting(Setting::Liars)),
        "--actors" => Some(Name::Setting(Setting::Actors)),
        "--interval" => Some(Name::Setting(Setting::Interval)),
        "--at" => Some(Name::Setting(Setting::At)),
        "--pick" => Some(Name::Setting(Setting::Pick)),
        "--quiet" => Some(Name::Switch(Switch::Quiet)),
        "--dump" => Some(Name::Switch(Switch::Dump)),
        _ => None,
    }
}

/// Options that are being read.
#[derive(Clone, Copy)]
struct Reader {
    given: Options,
    /// The setting whose number is the next word.
    awaiting: Option<Setting>,
}

impl Reader {
    /// Reads the word of an option.
    fn read_option(&mut self, word: &str) -> Result<(), Usage>
        requires { self.old.awaiting ≡ None }
        ensures gives { OnOk result ((rest : List Bytes) (v : Options)
            → Gives (word.now ∷ rest) self.old.given v ↔ Gives (pending self.new.awaiting rest) self.new.given v) }
        ensures none { OnErr result ((rest : List Bytes) (v : Options) → Gives (word.now ∷ rest) self.old.given v → ⊥) }
    {
        let (name, digits) = cut(word);
        let Some(option) = named(name) else {
            return Err(Usage);
        };
        match option {
            Name::Switch(switch) => {
                if digits.is_some() {
                    return Err(Usage);
                }
                self.given.turn_on(switch)
            }
            Name::Setting(setting) => match digits {
                Some(digits) => self.given.set(setting, digits.as_bytes()),
                None => {
                    self.awaiting = Some(setting);
                    Ok(())
                }
            },
        }
    }

    /// Reads the next word.
    fn read_word(&mut self, word: &str) -> Result<(), Usage>
        ensures gives { OnOk result ((rest : List Bytes) (v : Options)
            → Gives (pending self.old.awaiting (word.now ∷ rest)) self.old.given v
            ↔ Gives (pending self.new.awaiting rest) self.new.given v) }
        ensures none { OnErr result ((rest : List Bytes) (v : Options)
            → Gives (pending self.old.awaiting (word.now ∷ rest)) self.old.given v → ⊥) }
    {
        match self.awaiting {
            Some(setting) => {
                self.awaiting = None;
                self.given.set(setting, word.as_bytes())
            }
            None => self.read_option(word),
        }
    }
}

/// Reads all options.
pub fn read_options(words: &[&str]) -> Result<Options, Usage>
    ensures { MatchResult result
        (λ o. Gives (texts words.now) no_options o × ((v : Options) → Gives (texts words.now) no_options v → v ≡ o))
        (λ _. (v : Options) → Gives (texts words.now) no_options v → ⊥) }
{
    let mut reader = Reader {
        given: Options::none(),
        awaiting: None,
    };
    for word in words {
        reader.read_word(word)?;
    }
    if reader.awaiting.is_some() {
        return Err(Usage);
    }
    Ok(reader.given)
}
