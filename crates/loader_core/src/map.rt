// The sectors of a map, and what they say.
ghost use Rattle.std.specs.Prelude.{
  ◌≡◌,
  ◌≤◌,
  ◌<◌,
  ◌+◌,
  ◌++◌,
  codes,
  ℕ,
  List,
  [],
  if◌then◌else◌,
  length,
  map,
  zip,
  All,
  Option,
  Some,
};
ghost use Rattle.std.specs.Prelude.{IfOk, IfSome, IsErrOf};
ghost use Rattle.std.specs.Option.{option_map};
ghost use Rattle.lilo_model.specs.Checks.{seen, each};
ghost use Rattle.lilo_model.specs.Disks.{Image, Machine};
ghost use Rattle.lilo_model.specs.Options.{extra_at};
ghost use Rattle.lilo_model.specs.Table.{has_flag};
ghost use Rattle.lilo_model.specs.Reason.{map_reason};
ghost use Rattle.lilo_model.specs.Place.{command_line};
ghost use Rattle.lilo_model.specs.Boot.{
  MapSectors,
  GoodMap,
  slot_bytes_at,
  optional_at,
  extra_slot,
  entries_of,
  map_sectors,
};
ghost use Rattle.lilo_model.specs.Boot.{password_at, good_map, middle_of, fallback_of, settings_of, listed_entries};
ghost use Rattle.sector_address.specs.View.{slot_view};
ghost use Rattle.sector_address.specs.Machine.{OnDisks};
ghost use Rattle.bios_model.specs.Reads.{OnlyReads};
ghost use Rattle.boot_map.specs.View.{boot_view, table_view, line_view, descriptor_view, options_view, extra_view};
ghost use Rattle.boot_map.specs.View.{map_fault_view};
ghost use Rattle.boot_map.specs.Ranges.{IsOneSector, IsLine, IsNamed, HasSectors};
ghost use Rattle.prompt_core.specs.Decided.{plain_setup};
ghost use Rattle.prompt_core.specs.View.{choice_view, entries_view, settings_view};
ghost use Rattle.prompt_loop.specs.Message.{message_rest};
ghost use Rattle.section_loader.specs.View.{reason_view};
ghost use Rattle.loader_core.specs.Report.{message_read};
ghost use Rattle.loader_core.specs.Map.{
  ReadsThere,
  ReadsExtra,
  password_sector,
  prompt_entry,
  JudgesChoice,
  ReadsChoice,
  Adds,
};
ghost use Rattle.loader_core.specs.Map.{ReadsChoices, StandsFor, ReadsMap, IsTable, Judges, JudgesTexts, ReadsTexts};

use arrayvec::ArrayVec;
use bios_model::{BiosFault, read_slots};
use boot_map::{BootSector, DefaultLine, Descriptor, Extra, MapFault, Options, Table, flags};
use disk_trait::Disks;
use prompt_core::{Choice, Prompt, Settings};
use prompt_loop::Message;
use section_loader::{Halt, Reason, read_one};
use sector_address::Slot;
use sector_parts::Sector;

/// What is read of a map before a choice.
#[derive(Drop)]
pub(crate) struct MapParts {
    /// The sector of the default line.
    pub(crate) line: Sector,
    pub(crate) table: Result<Table, MapFault>,
    /// What is chosen from: the entries of the table, none where it is bad.
    pub(crate) choices: Choices,
}

/// The list that is chosen from.
#[derive(Drop)]
pub(crate) struct Choices {
    /// Whether the texts beside each password are within their limits.
    pub(crate) are_good: bool,
    pub(crate) list: ArrayVec<Choice, 48>,
}

/// The same of a map that is good.
#[derive(Drop)]
pub(crate) struct GoodParts {
    pub(crate) line: DefaultLine,
    pub(crate) table: Table,
    pub(crate) choices: ArrayVec<Choice, 48>,
}

/// The texts of a chosen entry.
#[derive(Drop)]
pub(crate) struct Texts {
    /// The middle of its command line.
    pub(crate) middle: ArrayVec<u8, 500>,
    /// Its fallback, of no bytes where it has none.
    pub(crate) fallback: ArrayVec<u8, 470>,
}

/// Reads the sectors of a map that are read before a choice: the default line's, those of the table, and where that
/// is good those of the passwords.
pub(crate) fn read_map<D: Disks>(disks: &mut D, boot: &BootSector) -> Result<MapParts, Halt>
    requires line { IsOneSector boot.now.line }
    requires table { length boot.now.table.items ≡ 3 }
    requires slots { All IsOneSector boot.now.table.items }
    requires names { boot.now.names ≤ 19 }
    ensures parts { OnDisks D.Disks disks.old (λ now machine.
        ReadsMap result (map_sectors now machine (boot_view boot.now))) }
    ensures known { IfOk result (λ parts. IfOk parts.table (IsTable boot.now.names)) }
    ensures reads { OnlyReads D.Disks disks.old disks.new (IsErrOf result Halt.Device) }
{
    let mut line = [0; 512];
    read_one(disks, &boot.line, &mut line)?;
    let mut sectors = [[0; 512]; 3];
    read_table(disks, boot.table.as_slice(), &mut sectors)?;
    let table = Table::read(boot, &sectors);
    let choices = read_table_choices(disks, &table)?;
    Ok(MapParts {
        line,
        table,
        choices,
    })
}

/// Reads the sectors of a table.
fn read_table<D: Disks>(disks: &mut D, slots: &[Slot], into: &mut [Sector]) -> Result<(), Halt>
    requires room { length slots.now ≡ length into.old }
    requires slots { All IsOneSector slots.now }
    ensures sectors { OnDisks D.Disks disks.old (λ now machine.
        ReadsThere result into.new (each (map (slot_bytes_at now machine) (map slot_view slots.now)))) }
    ensures reads { OnlyReads D.Disks disks.old disks.new (IsErrOf result Halt.Device) }
{
    match read_slots(disks, slots, into) {
        Ok(()) => Ok(()),
        Err(BiosFault::NotFound) => Err(Halt::Refused(Reason::NotFound)),
        Err(_) => Err(Halt::Device),
    }
}

/// Reads the passwords of a table's entries, and makes the list that is chosen from, an empty one where it is bad.
fn read_table_choices<D: Disks>(
    disks: &mut D,
    table: &Result<Table, MapFault>,
) -> Result<Choices, Halt>
    requires sectors { IfOk table.now (λ table. All HasSectors table.entries.items) }
    requires names { IfOk table.now (λ table. All IsNamed table.entries.items) }
    requires few { IfOk table.now (λ table. length table.entries.items ≤ 19) }
    ensures choices { OnDisks D.Disks disks.old (λ now machine.
        ReadsChoices result (entries_of (seen table_view map_fault_view table.now))
        (each (map (password_sector now machine) (entries_of (seen table_view map_fault_view table.now))))) }
    ensures reads { OnlyReads D.Disks disks.old disks.new (IsErrOf result Halt.Device) }
{
    match table {
        Ok(table) => read_choices(disks, table.entries.as_slice()),
        Err(_) => Ok(Choices {
            are_good: true,
            list: ArrayVec::new(),
        }),
    }
}

/// Reads the passwords of some entries, and makes the list that is chosen from.
fn read_choices<D: Disks>(disks: &mut D, entries: &[Descriptor]) -> Result<Choices, Halt>
    requires sectors { All HasSectors entries.now }
    requires names { All IsNamed entries.now }
    requires few { length entries.now ≤ 19 }
    ensures choices { OnDisks D.Disks disks.old (λ now machine.
        ReadsChoices result (map descriptor_view entries.now)
        (each (map (password_sector now machine) (map descriptor_view entries.now)))) }
    ensures reads { OnlyReads D.Disks disks.old disks.new (IsErrOf result Halt.Device) }
{
    let mut choices = Choices {
        are_good: true,
        list: ArrayVec::new(),
    };
    for entry in entries {
        let choice = read_choice(disks, entry)?;
        add_choice(&mut choices, choice);
    }
    Ok(choices)
}

/// Goes on with the list that is chosen from, by what stands for the next entry in it.
fn add_choice(choices: &mut Choices, choice: Option<Choice>)
    requires { length choices.old.list.items < 48 }
    ensures added { Adds choices.old choice choices.new }
    ensures few { length choices.new.list.items ≤ length choices.old.list.items + 1 }
{
    match choice {
        Some(choice) => choices.list.push(choice),
        None => choices.are_good = false,
    }
}

/// Reads the password of an entry, where it has one: what stands for the entry in the list that is chosen from, or
/// `None` where a text beside the password passes its limit.
fn read_choice<D: Disks>(disks: &mut D, entry: &Descriptor) -> Result<Option<Choice>, Halt>
    requires sectors { HasSectors entry.now }
    requires named { IsNamed entry.now }
    ensures choice { OnDisks D.Disks disks.old (λ now machine.
        ReadsChoice result (descriptor_view entry.now) (password_sector now machine (descriptor_view entry.now))) }
    ensures reads { OnlyReads D.Disks disks.old disks.new (IsErrOf result Halt.Device) }
{
    let extra = read_extra(disks, entry, flags::PASSWORD)?;
    Ok(choice_by(entry, extra))
}

/// What stands for an entry in the list that is chosen from, by its extra sector where it has a password.
fn choice_by(entry: &Descriptor, extra: Option<Result<Extra, MapFault>>) -> Option<Choice>
    requires { IsNamed entry.now }
    ensures { (bytes : Option (List ℕ)) → option_map (seen extra_view map_fault_view) extra ≡ option_map extra_at bytes
        → JudgesChoice result (descriptor_view entry.now) (password_at bytes) }
{
    match extra {
        None => Some(choice_of(entry, None)),
        Some(Ok(extra)) => Some(choice_of(entry, Some(extra.password))),
        Some(Err(_)) => None,
    }
}

/// What stands for an entry with this password in the list that is chosen from.
fn choice_of(entry: &Descriptor, password: Option<ArrayVec<u8, 31>>) -> Choice
    requires { IsNamed entry.now }
    ensures { choice_view result
        ≡ prompt_entry (descriptor_view entry.now, option_map (λ password. password.items) password) }
{
    let mut name = ArrayVec::new();
    let _ = name.try_extend_from_slice(entry.name.as_slice());
    Choice {
        name,
        password,
        restricted: is_set(entry, flags::RESTRICTED),
    }
}

/// Reads the extra sector of an entry where this flag asks for it.
fn read_extra<D: Disks>(
    disks: &mut D,
    entry: &Descriptor,
    flag: u16,
) -> Result<Option<Result<Extra, MapFault>>, Halt>
    requires { HasSectors entry.now }
    ensures extra { OnDisks D.Disks disks.old (λ now machine.
        ReadsExtra result (optional_at now machine (extra_slot flag (descriptor_view entry.now)))) }
    ensures reads { OnlyReads D.Disks disks.old disks.new (IsErrOf result Halt.Device) }
{
    if !is_set(entry, flag) {
        return Ok(None);
    }
    match &entry.extra {
        Some(slot) => read_extra_at(disks, slot),
        None => Ok(None),
    }
}

/// Reads an extra sector.
#[tactic(auto, unfolding(lilo_model::specs::Boot::slot_bytes_at))]
fn read_extra_at<D: Disks>(
    disks: &mut D,
    slot: &Slot,
) -> Result<Option<Result<Extra, MapFault>>, Halt>
    requires { IsOneSector slot.now }
    ensures extra { OnDisks D.Disks disks.old (λ now machine.
        ReadsExtra result (optional_at now machine (Some (slot_view slot.now)))) }
    ensures reads { OnlyReads D.Disks disks.old disks.new (IsErrOf result Halt.Device) }
{
    let mut sector = [0; 512];
    read_one(disks, slot, &mut sector)?;
    Ok(Some(Extra::read(&sector)))
}

/// Whether an entry has a flag.
fn is_set(entry: &Descriptor, flag: u16) -> bool
    ensures { result ≡ has_flag entry.now.flags flag }
{
    entry.flags & flag != 0
}

/// How a boot reports what is wrong with a map.
pub(crate) fn map_reason_of(fault: MapFault) -> Reason
    ensures { reason_view result ≡ map_reason (map_fault_view fault) }
{
    match fault {
        MapFault::NotOurs | MapFault::BadVersion(_) => Reason::NotBootable,
        MapFault::BadTable(entry) => Reason::BadTable(entry),
        MapFault::BadLine => Reason::BadLine,
    }
}

/// The parts of a map that is good, or the first that isn't: the line, the table, or the passwords.
#[tactic(auto, unfolding(lilo_model::specs::Boot::good_map))]
pub(crate) fn judge(parts: MapParts) -> Result<GoodParts, Reason>
    ensures judged { (sectors : MapSectors) → StandsFor parts sectors → Judges result (good_map sectors) }
    ensures known { (names : ℕ) → IfOk parts.table (IsTable names) → IfOk result (λ good. IsTable names good.table) }
    ensures line { IfOk result (λ good. IsLine good.line) }
{
    let MapParts {
        line,
        table,
        choices,
    } = parts;
    let line = match DefaultLine::read(&line) {
        Ok(line) => line,
        Err(fault) => return Err(map_reason_of(fault)),
    };
    match table {
        Err(fault) => Err(map_reason_of(fault)),
        Ok(_) if !choices.are_good => Err(Reason::BadTable(255)),
        Ok(table) => Ok(GoodParts {
            line,
            table,
            choices: choices.list,
        }),
    }
}

/// The prompt of a good map.
pub(crate) fn prompt_of(
    boot: &BootSector,
    choices: ArrayVec<Choice, 48>,
    line: &DefaultLine,
) -> Prompt
    ensures { (model : GoodMap) → model.line ≡ line_view line.now
        → entries_view choices.items ≡ map prompt_entry (zip model.entries model.passwords)
        → (now : Image) (machine : Machine) → result.setup
        ≡ plain_setup (settings_of (boot_view boot.now)) (listed_entries now machine model) model.line }
{
    Prompt::new(settings_of(boot), choices, line)
}

/// How the prompt is set up.
#[tactic(auto, unfolding(lilo_model::specs::Boot::settings_of))]
fn settings_of(boot: &BootSector) -> Settings
    ensures settings { settings_view result ≡ settings_of (boot_view boot.now) }
    ensures capacity { result.capacity ≡ 255 }
{
    Settings {
        prompt: boot.prompt,
        delay: boot.delay,
        timeout: boot.timeout,
        default_entry: boot.default_entry,
        capacity: 255,
    }
}

/// The message of a map, if it has one.
#[tactic(auto, unfolding(crate::specs::Report::message_read))]
pub(crate) fn message_of(boot: &BootSector) -> Option<Message>
    requires { IfSome boot.now.message IsOneSector }
    ensures message { (now : Image) (machine : Machine)
        → message_rest now machine result ≡ message_read now machine (boot_view boot.now) }
    ensures one { IfSome result (λ message. message.first.count ≡ 1) }
{
    match boot.message {
        None => None,
        Some(first) => Some(Message {
            first,
            length: u32::from(boot.message_length),
            chain: boot.message_chain,
        }),
    }
}

/// Reads the texts of an entry. Both of its sectors are read before a length in either is judged.
pub(crate) fn read_texts<D: Disks>(disks: &mut D, entry: &Descriptor) -> Result<Texts, Halt>
    requires sectors { HasSectors entry.now }
    ensures texts { OnDisks D.Disks disks.old (λ now machine.
        ReadsTexts result (middle_of now machine (descriptor_view entry.now))
        (fallback_of now machine (descriptor_view entry.now))) }
    ensures limit { IfOk result (λ texts. length texts.middle.items ≤ 255) }
    ensures reads { OnlyReads D.Disks disks.old disks.new (IsErrOf result Halt.Device) }
{
    let mut sector = [0; 512];
    read_one(disks, &entry.options, &mut sector)?;
    let extra = read_extra(disks, entry, flags::FALLBACK)?;
    judge_texts(Options::read(&sector), extra)
}

/// The texts of an entry, by what its options sector says, and its extra sector where it has a fallback.
fn judge_texts(
    options: Result<Options, MapFault>,
    extra: Option<Result<Extra, MapFault>>,
) -> Result<Texts, Halt>
    requires { IfOk options (λ options. length options.middle.items ≤ 255) }
    ensures texts { JudgesTexts result (seen options_view map_fault_view options)
        (option_map (seen extra_view map_fault_view) extra) }
    ensures limit { IfOk result (λ texts. length texts.middle.items ≤ 255) }
{
    let options = match options {
        Ok(options) => options,
        Err(fault) => return Err(Halt::Refused(map_reason_of(fault))),
    };
    let fallback = match extra {
        None => ArrayVec::new(),
        Some(Ok(extra)) => extra.fallback,
        Some(Err(fault)) => return Err(Halt::Refused(map_reason_of(fault))),
    };
    Ok(Texts {
        middle: options.middle,
        fallback,
    })
}

/// The command line of a chosen entry.
#[tactic(auto, unfolding(lilo_model::specs::Place::command_line))]
pub(crate) fn command_line(
    automatic: bool,
    name: &[u8],
    middle: &[u8],
    words: &[u8],
) -> ArrayVec<u8, 768>
    requires name { length name.now ≤ 15 }
    requires middle { length middle.now ≤ 255 }
    requires words { length words.now ≤ 470 }
    ensures line { result.items ≡ command_line automatic name.now middle.now words.now }
    ensures limit { length result.items ≤ 760 }
{
    let mut line = ArrayVec::new();
    let _ = line.try_extend_from_slice(opening_words(automatic));
    let _ = line.try_extend_from_slice(name);
    let _ = line.try_extend_from_slice(middle);
    if !words.is_empty() {
        line.push(b' ');
        let _ = line.try_extend_from_slice(words);
    }
    line
}

/// What a command line begins with.
fn opening_words(automatic: bool) -> &'static [u8]
    ensures begins { result.now ≡ (if automatic then codes "auto " else []) ++ codes "BOOT_IMAGE=" }
    ensures limit { length result.now ≤ 16 }
{
    if automatic {
        b"auto BOOT_IMAGE="
    } else {
        b"BOOT_IMAGE="
    }
}
