// Initial values: the words with which registers and memories start.
ghost use Rattle.std.specs.Prelude.{◌≡◌, ◌&&◌, ◌∷◌, [], false, true, Some, None, codes, length, map, get_or, option_map, unwrap_or, IsOk, IfOk, IfErr};
ghost use Rattle.std.specs.List.{Contains, flat_map};
ghost use Rattle.std.specs.List.Sorted.{IsStrictlyIncreasing};
ghost use Rattle.cif_defs.specs.Words.{bit as bit_of, word};
ghost use Rattle.cif_defs.specs.Table.{kind_of as kind_of_text};
ghost use Rattle.cif_defs.specs.RawModule.{value_named, nets_in, net_numbers, digits_given, digits_read};
ghost use Rattle.cif_defs.specs.Accepted.{digit_at, init_at, initial_of, no_bit};
ghost use Rattle.cif_defs.specs.declared.raw_module.ParamValue.TheVariants.{Number};
ghost use Rattle.cif_checks.specs.Checks.{IsFirst, has_number, register_numbers_by, inits_fault};
ghost use Rattle.cif_nets.specs.Told.{told_all};
ghost use Rattle.cif_nets.specs.Inits.{init_more, gives as is_given, start_of, init_of, told_bit, told_bits, told_by_name, marked, named, conflict_fault, start_bit as start_of_bit};

use crate::drives::kept_bits;
use crate::numbers::place_of;
use cif_checks::raw_access::{number_below_limit, value_digit};
use cif_checks::{BuildFault, KnownCell, KnownModule};
use cif_defs::{Kind, Listed, Param, ParamValue, RawBit, RawName, RawParam, Role};
use cif_kinds::table;
use std::alloc::{AllocError, Global};

/// What the `init` attributes of a module give for a net number.
#[derive(Clone, Copy, Debug, Drop)]
pub enum InitBit {
    /// No digit.
    Nothing,
    /// One digit, maybe several times.
    Digit(bool),
    /// Both digits; this one comes first.
    Both(bool),
}

impl InitBit {
    /// With one more digit.
    fn more(self, digit: bool) -> InitBit
        ensures { result ≡ init_more self digit }
    {
        match self {
            InitBit::Nothing => InitBit::Digit(digit),
            InitBit::Digit(first) => {
                if first == digit {
                    InitBit::Digit(first)
                } else {
                    InitBit::Both(first)
                }
            }
            InitBit::Both(first) => InitBit::Both(first),
        }
    }

    /// Whether both digits are given.
    fn is_conflict(self) -> bool
        ensures { result ≡ (is_given self false && is_given self true) }
    {
        matches!(self, InitBit::Both(_))
    }

    /// The first digit that is given, or else 0.
    fn start(self) -> bool
        ensures { result ≡ start_of self }
    {
        match self {
            InitBit::Nothing => false,
            InitBit::Digit(digit) => digit,
            InitBit::Both(first) => first,
        }
    }
}

// ---- what `init` attributes give

/// The digit 0 or 1 at place `index` of a text that stands highest first; None for another byte, and past the end.
fn text_digit(text: &[u8], index: usize) -> Option<bool>
    ensures { result ≡ digit_at text.now index }
{
    if index >= text.len() {
        return None;
    }
    match text[text.len() - 1 - index] {
        b'0' => Some(false),
        b'1' => Some(true),
        _ => None,
    }
}

/// Binary digit `index` of a whole number from 0 on below 2 to the 32; None for another number, and from digit 32 on.
fn whole_digit(number: i128, index: usize) -> Option<bool>
    ensures { result ≡ init_at (Number number) index }
{
    match number_below_limit(number) {
        Some(number) => {
            if index < 32 {
                Some((number >> index) % 2 == 1)
            } else {
                None
            }
        }
        None => None,
    }
}

/// What an `init` gives at place `index`, lowest first.
fn digit_of(value: &ParamValue, index: usize) -> Option<bool>
    ensures { result ≡ init_at value.now index }
{
    match value {
        ParamValue::Text(text) => text_digit(text.items(), index),
        ParamValue::Number(number) => whole_digit(*number, index),
    }
}

/// The value of the first attribute `init`.
fn init_value(attributes: &[RawParam]) -> Option<&ParamValue>
    ensures { option_map (λ v. v.now) result ≡ value_named (codes "init") attributes.now }
{
    for attribute in attributes {
        if attribute.name.items() == "init".as_bytes() {
            return Some(&attribute.value);
        }
    }
    None
}

/// Records a digit for a net number.
fn record(numbers: &[u64], inits: &mut [InitBit], number: u64, digit: bool)
    requires rising { IsStrictlyIncreasing numbers.now }
    requires same { length inits.old ≡ length numbers.now }
    ensures { inits.new ≡ told_all init_more numbers.now inits.old ((number, digit) ∷ []) }
{
    if let Some(place) = place_of(numbers, number) {
        inits[place] = inits[place].more(digit);
    }
}

/// Records what an `init` gives for a bit at place `index`.
fn record_bit(numbers: &[u64], inits: &mut [InitBit], value: &ParamValue, index: usize, bit: RawBit)
    requires rising { IsStrictlyIncreasing numbers.now }
    requires same { length inits.old ≡ length numbers.now }
    ensures { inits.new ≡ told_all init_more numbers.now inits.old (told_bit value.now index bit) }
{
    if let RawBit::Net(number) = bit {
        if let Some(digit) = digit_of(value, index) {
            record(numbers, inits, number, digit);
        }
    }
}

/// Records what an `init` gives for some bits.
fn record_bits(numbers: &[u64], inits: &mut [InitBit], value: &ParamValue, bits: &[RawBit])
    requires rising { IsStrictlyIncreasing numbers.now }
    requires same { length inits.old ≡ length numbers.now }
    ensures { inits.new ≡ told_all init_more numbers.now inits.old (told_bits value.now 0 bits.now) }
{
    for (index, bit) in bits.iter().enumerate() {
        record_bit(numbers, inits, value, index, *bit);
    }
}

/// Records what a name gives.
fn record_name(numbers: &[u64], inits: &mut [InitBit], name: &RawName)
    requires rising { IsStrictlyIncreasing numbers.now }
    requires same { length inits.old ≡ length numbers.now }
    ensures { inits.new ≡ told_all init_more numbers.now inits.old (told_by_name name.now) }
{
    if let Some(value) = init_value(name.attributes.items()) {
        record_bits(numbers, inits, value, name.bits.items());
    }
}

/// Records what some names give.
fn record_names(numbers: &[u64], inits: &mut [InitBit], names: &[RawName])
    requires rising { IsStrictlyIncreasing numbers.now }
    requires same { length inits.old ≡ length numbers.now }
    ensures { inits.new ≡ told_all init_more numbers.now inits.old (flat_map told_by_name names.now) }
{
    for name in names {
        record_name(numbers, inits, name);
    }
}

/// What the `init` attributes of named nets give for each of some net numbers, which rise.
pub fn all_inits(
    alloc: Global,
    numbers: &[u64],
    names: &[RawName],
) -> Result<Vec<InitBit>, AllocError>
    requires { IsStrictlyIncreasing numbers.now }
    ensures { IfOk result (λ v. v.items ≡ map (init_of names.now) numbers.now) }
{
    let mut inits = vec![in alloc; InitBit::Nothing; numbers.len()]?;
    record_names(numbers, &mut inits, names);
    Ok(inits)
}

// ---- registers whose bits start at 0 and at 1

/// The output bits of a register; none of another cell.
fn register_bits<'a>(cell: &'a KnownCell) -> &'a [RawBit]
    ensures { nets_in result.now ≡ register_numbers_by cell.now (kind_of_text cell.now.kind) }
{
    match cell.kind() {
        Some(kind) => match table::role(kind) {
            Role::PlainRegister | Role::ResetRegister => kept_bits(cell),
            Role::Combinational | Role::MemoryBlock | Role::CarriedOver => &[],
        },
        None => &[],
    }
}

/// Marks a net number.
fn mark(numbers: &[u64], marks: &mut [bool], number: u64)
    requires rising { IsStrictlyIncreasing numbers.now }
    requires same { length marks.old ≡ length numbers.now }
    ensures { marks.new ≡ told_all marked numbers.now marks.old ((number, tt) ∷ []) }
{
    if let Some(place) = place_of(numbers, number) {
        marks[place] = true;
    }
}

/// Marks the net numbers among some bits.
fn mark_bits(numbers: &[u64], marks: &mut [bool], bits: &[RawBit])
    requires rising { IsStrictlyIncreasing numbers.now }
    requires same { length marks.old ≡ length numbers.now }
    ensures { marks.new ≡ told_all marked numbers.now marks.old (named (nets_in bits.now)) }
{
    for bit in bits {
        if let RawBit::Net(number) = *bit {
            mark(numbers, marks, number);
        }
    }
}

/// Marks the net numbers of register outputs.
fn mark_cells(numbers: &[u64], marks: &mut [bool], cells: &[KnownCell])
    requires rising { IsStrictlyIncreasing numbers.now }
    requires same { length marks.old ≡ length numbers.now }
    ensures { marks.new ≡ told_all marked numbers.now marks.old (named (flat_map (λ c. register_numbers_by c (kind_of_text c.kind)) cells.now)) }
{
    for cell in cells {
        mark_bits(numbers, marks, register_bits(cell));
    }
}

/// For each of some net numbers, which rise, whether a register's output has it.
fn register_marks(
    alloc: Global,
    numbers: &[u64],
    cells: &[KnownCell],
) -> Result<Vec<bool>, AllocError>
    requires { IsStrictlyIncreasing numbers.now }
    ensures { IfOk result
        (λ v. v.items ≡ map (λ n. has_number n (flat_map (λ c. register_numbers_by c (kind_of_text c.kind)) cells.now)) numbers.now) }
{
    let mut marks = vec![in alloc; false; numbers.len()]?;
    mark_cells(numbers, &mut marks, cells);
    Ok(marks)
}

/// Checks that no marked number has both digits; the least that has is refused.
fn check_conflicts(numbers: &[u64], marks: &[bool], inits: &[InitBit]) -> Result<(), BuildFault>
    requires marks { length marks.now ≡ length numbers.now }
    requires inits { length inits.now ≡ length numbers.now }
    ensures ok { IsOk result → conflict_fault numbers.now marks.now inits.now ≡ None }
    ensures err { IfErr result (λ e. IsFirst (conflict_fault numbers.now marks.now inits.now) e) }
{
    for (place, number) in numbers.iter().enumerate() {
        if marks[place] && inits[place].is_conflict() {
            return Err(BuildFault::InitConflict(*number));
        }
    }
    Ok(())
}

/// Checks that `init` attributes give no bit of a register both 0 and 1, where `numbers` are the net numbers of the
/// module and `inits` what the attributes give for each; the least net number with both is refused.
#[tactic(auto, unfolding(cif_checks::specs::Checks::inits_fault))]
pub fn check_inits(
    alloc: Global,
    known: &KnownModule,
    numbers: &[u64],
    inits: &[InitBit],
) -> Result<(), BuildFault>
    requires numbers { numbers.now ≡ net_numbers known.now }
    requires inits { inits.now ≡ map (init_of known.now.names) numbers.now }
    ensures ok { IsOk result → inits_fault known.now ≡ None }
    ensures err { IfErr result (λ e. IsFirst (inits_fault known.now) e) }
{
    let marks = register_marks(alloc, numbers, known.cells())?;
    check_conflicts(numbers, &marks, inits)
}

// ---- initial words

/// The bit with which a register's output bit starts.
fn start_bit(numbers: &[u64], inits: &[InitBit], bit: RawBit) -> bool
    requires rising { IsStrictlyIncreasing numbers.now }
    requires same { length inits.now ≡ length numbers.now }
    ensures { result ≡ start_of_bit numbers.now inits.now bit }
{
    match bit {
        RawBit::Net(number) => match place_of(numbers, number) {
            Some(place) => inits[place].start(),
            None => false,
        },
        RawBit::Zero | RawBit::One | RawBit::X | RawBit::Z => false,
    }
}

/// The bit with which bit `index` of a register's output starts; 0 past the end.
fn start_at(numbers: &[u64], inits: &[InitBit], bits: &[RawBit], index: u64) -> bool
    requires rising { IsStrictlyIncreasing numbers.now }
    requires same { length inits.now ≡ length numbers.now }
    ensures { result ≡ start_of_bit numbers.now inits.now (get_or bits.now index no_bit) }
{
    if index < bits.len() as u64 {
        start_bit(numbers, inits, bits[index as usize])
    } else {
        false
    }
}

/// The word with which a register of a width starts, whose output has these bits.
fn register_word(
    alloc: Global,
    numbers: &[u64],
    inits: &[InitBit],
    bits: &[RawBit],
    width: u64,
) -> Result<Vec<bool>, AllocError>
    requires rising { IsStrictlyIncreasing numbers.now }
    requires same { length inits.now ≡ length numbers.now }
    ensures { IfOk result
        (λ v. v.items ≡ word width (λ i. start_of_bit numbers.now inits.now (get_or bits.now i no_bit))) }
{
    let mut started = Vec::new(alloc);
    for index in 0..width {
        started.push(start_at(numbers, inits, bits, index))?;
    }
    Ok(started)
}

/// Digit `index` of a value that may be missing, lowest first, where x, z and missing digits are 0.
fn optional_digit(value: Option<&ParamValue>, index: u64) -> bool
    ensures { result ≡ bit_of (unwrap_or (option_map digits_read (option_map (λ v. v.now) value.entry)) []) index }
{
    match value {
        Some(value) => value_digit(value, index),
        None => false,
    }
}

/// The word of so many bits with which a memory starts.
fn memory_word(alloc: Global, cell: &KnownCell, bits: u64) -> Result<Vec<bool>, AllocError>
    ensures { IfOk result (λ v. v.items ≡ word bits (λ i. bit_of (digits_given cell.now Param.Init) i)) }
{
    let value = cell.value(Param::Init);
    let mut started = Vec::new(alloc);
    for index in 0..bits {
        started.push(optional_digit(value, index))?;
    }
    Ok(started)
}

/// The word with which a cell of a kind starts; the cell is one of the module's.
#[tactic(auto, unfolding(cif_defs::specs::Accepted::initial_of))]
fn word_by_kind(
    alloc: Global,
    known: &KnownModule,
    numbers: &[u64],
    inits: &[InitBit],
    cell: &KnownCell,
    kind: Kind,
) -> Result<Vec<bool>, AllocError>
    requires numbers { numbers.now ≡ net_numbers known.now }
    requires inits { inits.now ≡ map (init_of known.now.names) numbers.now }
    requires known { kind_of_text cell.now.kind ≡ Some kind }
    requires one { Contains known.now.cells cell.now }
    ensures { IfOk result (λ v. v.items ≡ initial_of numbers.now known.now.names cell.now) }
{
    match table::role(kind) {
        Role::PlainRegister | Role::ResetRegister => {
            let width = cell.number(Param::Width);
            register_word(alloc, numbers, inits, kept_bits(cell), width)
        }
        Role::MemoryBlock => {
            let size = cell.number(Param::Size);
            memory_word(alloc, cell, size * cell.number(Param::Width))
        }
        Role::Combinational | Role::CarriedOver => Ok(Vec::new(alloc)),
    }
}

/// The word with which a cell starts; the cell is one of the module's.
#[tactic(auto, unfolding(cif_defs::specs::Accepted::initial_of))]
fn initial_word(
    alloc: Global,
    known: &KnownModule,
    numbers: &[u64],
    inits: &[InitBit],
    cell: &KnownCell,
) -> Result<Vec<bool>, AllocError>
    requires numbers { numbers.now ≡ net_numbers known.now }
    requires inits { inits.now ≡ map (init_of known.now.names) numbers.now }
    requires one { Contains known.now.cells cell.now }
    ensures { IfOk result (λ v. v.items ≡ initial_of numbers.now known.now.names cell.now) }
{
    match cell.kind() {
        Some(kind) => word_by_kind(alloc, known, numbers, inits, cell, kind),
        None => Ok(Vec::new(alloc)),
    }
}

/// The words with which the cells of a module start, where `numbers` are its net numbers and `inits` what `init`
/// attributes give for each. A cell that stores nothing has an empty word.
pub fn initial_words(
    alloc: Global,
    known: &KnownModule,
    numbers: &[u64],
    inits: &[InitBit],
) -> Result<Vec<Listed<bool>>, AllocError>
    requires numbers { numbers.now ≡ net_numbers known.now }
    requires inits { inits.now ≡ map (init_of known.now.names) numbers.now }
    ensures { IfOk result (λ v. v.items ≡ map (initial_of numbers.now known.now.names) known.now.cells) }
{
    let mut words = Vec::new(alloc);
    for cell in known.cells() {
        let word = initial_word(alloc, known, numbers, inits, cell)?;
        words.push(Listed::of(word))?;
    }
    Ok(words)
}
