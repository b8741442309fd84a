//! A module out of its bytes, read once from front to back.
ghost use Rattle.std.specs.Prelude.{◌≡◌, ◌∷◌, ◌++◌, ◌*◌, true, ◌≤◌, length, drop, Err, IfOk, OnOk, IfSome, is_some};
ghost use Rattle.std.specs.List.{list_all};
ghost use Rattle.std.specs.Int.{w16, to_be_bytes};
ghost use Rattle.tatp_encoding.specs.Decoding.{decoded};
ghost use Rattle.tatp_encoding.specs.Modules.{is_name, is_name_byte, is_procedure, has_version};
ghost use Rattle.tatp_instr.specs.Versions.{is_in};
ghost use Rattle.tatp_encoding.specs.Spelling.{spelling};
ghost use Rattle.tatp_loader.specs.ModuleBytes.{code_bytes, procedure_bytes, procedures_bytes, IsModuleOf, magic};
ghost use Rattle.tatp_loader.specs.Reading.{Reads, Gives, byte_at, bytes_at, name_at, arity_at, length_at, instr_at, code_at, procedure_at, procedures_at, version_of, version_at, count_at, module_at, kind_of};

use crate::fault::{LoadError, LoadFault, LoadFaultKind, fault};
use std::alloc::Global;
use tatp_encoding::{Bad, Proc, are_name_bytes, decode};
use tatp_instr::{Instr, Version};
use tatp_limits::{MAX_ARGUMENTS, MAX_INSTRUCTIONS, MAX_NAME_BYTES, MAX_PROCEDURES};

/// What each module of a version begins with.
pub(crate) fn magic(version: Version) -> [u8; 4]
    ensures { result ≡ magic version }
{
    match version {
        Version::One => [0x54, 0x50, 0x4D, 0x01],
        Version::Two => [0x54, 0x50, 0x4D, 0x02],
    }
}

/// The first byte, and those after it.
fn byte_at(bytes: &[u8], ends: LoadFault) -> Result<(u8, &[u8]), LoadFault>
    ensures read { Reads (λ x. (x.0, x.1.now)) result (byte_at ends bytes.now) }
    ensures spelled { IfOk result (λ x. bytes.now ≡ x.0 ∷ x.1.now) }
{
    match bytes {
        [byte, rest @ ..] => Ok((*byte, rest)),
        [] => Err(ends),
    }
}

/// The first `len` bytes, and those after them.
fn bytes_at(bytes: &[u8], len: usize, ends: LoadFault) -> Result<(&[u8], &[u8]), LoadFault>
    ensures read { Reads (λ x. (x.0.now, x.1.now)) result (bytes_at ends len bytes.now) }
    ensures spelled { IfOk result (λ x. (bytes.now ≡ x.0.now ++ x.1.now) × (length x.0.now ≡ len)) }
{
    if bytes.len() < len {
        return Err(ends);
    }
    Ok(bytes.split_at(len))
}

/// The text of bytes that may be in a name, all of them.
fn name_of(bytes: &[u8]) -> Option<&str>
    ensures some { IfSome result (λ name. name.now ≡ bytes.now) }
    ensures passes { is_some result ≡ list_all is_name_byte bytes.now }
{
    if !are_name_bytes(bytes) {
        return None;
    }
    match str::from_utf8(bytes) {
        Ok(name) => Some(name),
        Err(_) => unreachable!("they are ASCII"),
    }
}

/// The name of the procedure n, after its length.
#[tactic(auto, unfolding(crate::specs::Reading::name_at))]
fn name_at(bytes: &[u8], n: usize) -> Result<(&str, &[u8]), LoadFault>
    ensures read { Reads (λ x. (x.0.now, x.1.now)) result (name_at n bytes.now) }
    ensures spelled { IfOk result (λ x. bytes.now ≡ (length x.0.now ∷ x.0.now) ++ x.1.now) }
    ensures name { IfOk result (λ x. is_name x.0.now ≡ true) }
{
    let cut = fault(LoadFaultKind::Truncated, n, 0);
    let bad = fault(LoadFaultKind::BadHeader, n, 0);
    let (size, rest) = byte_at(bytes, cut)?;
    let size = usize::from(size);
    if size < 1 || size > MAX_NAME_BYTES {
        return Err(bad);
    }
    let (name, rest) = bytes_at(rest, size, cut)?;
    match name_of(name) {
        Some(name) => Ok((name, rest)),
        None => Err(bad),
    }
}

/// How many arguments the procedure n takes.
#[tactic(auto, unfolding(crate::specs::Reading::arity_at))]
fn arity_at(bytes: &[u8], n: usize) -> Result<(u8, &[u8]), LoadFault>
    ensures read { Reads (λ x. (x.0, x.1.now)) result (arity_at n bytes.now) }
    ensures spelled { IfOk result (λ x. bytes.now ≡ x.0 ∷ x.1.now) }
    ensures most { IfOk result (λ x. x.0 ≤ MAX_ARGUMENTS) }
{
    let (arity, rest) = byte_at(bytes, fault(LoadFaultKind::Truncated, n, 0))?;
    if usize::from(arity) > MAX_ARGUMENTS {
        return Err(fault(LoadFaultKind::BadHeader, n, 0));
    }
    Ok((arity, rest))
}

/// How many instructions the procedure n has.
#[tactic(auto, unfolding(crate::specs::Reading::length_at))]
fn length_at(bytes: &[u8], n: usize) -> Result<(usize, &[u8]), LoadFault>
    ensures read { Reads (λ x. (x.0, x.1.now)) result (length_at n bytes.now) }
    ensures spelled { IfOk result (λ x. bytes.now ≡ to_be_bytes w16 x.0 ++ x.1.now) }
    ensures range { IfOk result (λ x. (1 ≤ x.0) × (x.0 ≤ MAX_INSTRUCTIONS)) }
{
    let (field, rest) = bytes_at(bytes, 2, fault(LoadFaultKind::Truncated, n, 0))?;
    let len = usize::from(u16::from_be_bytes([field[0], field[1]]));
    if len < 1 || len > MAX_INSTRUCTIONS {
        return Err(fault(LoadFaultKind::BadHeader, n, 0));
    }
    Ok((len, rest))
}

/// The kind of what is wrong with eight bytes.
fn kind_of(bad: Bad) -> LoadFaultKind
    ensures { result ≡ kind_of bad }
{
    match bad {
        Bad::BadOp => LoadFaultKind::BadOp,
        Bad::UnusedNotZero => LoadFaultKind::UnusedNotZero,
        Bad::BadRegister => LoadFaultKind::BadRegister,
    }
}

/// The instruction of eight bytes.
fn decoded(version: Version, field: &[u8]) -> Result<Instr, Bad>
    requires { length field.now ≡ 8 }
    ensures read { result ≡ decoded version field.now }
    ensures spelled { IfOk result (λ instr. field.now ≡ spelling instr) }
    ensures version { IfOk result (λ instr. is_in version instr ≡ true) }
{
    decode(
        version,
        &[
            field[0], field[1], field[2], field[3], field[4], field[5], field[6], field[7],
        ],
    )
}

/// The instruction i of the procedure n, in the first eight bytes.
#[tactic(auto, unfolding(crate::specs::Reading::instr_at))]
fn instr_at(version: Version, bytes: &[u8], n: usize, i: usize) -> Result<Instr, LoadFault>
    ensures read { Reads (λ instr. (instr, drop 8 bytes.now)) result
        (instr_at version n i bytes.now) }
    ensures spelled { IfOk result (λ instr. bytes.now ≡ spelling instr ++ drop 8 bytes.now) }
    ensures version { IfOk result (λ instr. is_in version instr ≡ true) }
    ensures within { OnOk result (8 ≤ length bytes.now) }
{
    let (field, _) = bytes_at(bytes, 8, fault(LoadFaultKind::Truncated, n, i))?;
    match decoded(version, field) {
        Ok(instr) => Ok(instr),
        Err(bad) => Err(fault(kind_of(bad), n, i)),
    }
}

/// The instructions of the procedure n, `len` of them, in the first 8 * `len` bytes.
fn code_at(
    alloc: Global,
    version: Version,
    bytes: &[u8],
    n: usize,
    len: usize,
) -> Result<Vec<Instr>, LoadError>
    ensures read { Gives (λ code. (code.items, drop (8 * len) bytes.now)) result
        (code_at version n 0 len bytes.now) }
    ensures spelled { IfOk result
        (λ code. bytes.now ≡ code_bytes code.items ++ drop (8 * len) bytes.now) }
    ensures count { IfOk result (λ code. length code.items ≡ len) }
    ensures version { IfOk result (λ code. list_all (is_in version) code.items ≡ true) }
{
    let mut code = Vec::with_capacity(alloc, len)?;
    let mut rest = bytes;
    for i in 0..len {
        let instr = instr_at(version, rest, n, i)?;
        code.push(instr)?;
        let (_, after) = rest.split_at(8);
        rest = after;
    }
    Ok(code)
}

/// The procedure n, and how many bytes it takes.
#[tactic(auto, unfolding(crate::specs::Reading::procedure_at))]
fn procedure_at(
    alloc: Global,
    version: Version,
    bytes: &[u8],
    n: usize,
) -> Result<(Proc, usize), LoadError>
    ensures read { Gives (λ x. (x.0, drop x.1 bytes.now)) result
        (procedure_at version n bytes.now) }
    ensures spelled { IfOk result (λ x. bytes.now ≡ procedure_bytes x.0 ++ drop x.1 bytes.now) }
    ensures within { IfOk result (λ x. x.1 ≤ length bytes.now) }
    ensures fits { IfOk result (λ x. is_procedure x.0 ≡ true) }
    ensures version { IfOk result (λ x. has_version version x.0 ≡ true) }
{
    let (name, rest) = name_at(bytes, n)?;
    let (arity, rest) = arity_at(rest, n)?;
    let (len, rest) = length_at(rest, n)?;
    let code = code_at(alloc, version, rest, n, len)?;
    // The name's length, the name, the arity, the number of instructions, and those.
    let size = 1 + name.len() + 1 + 2 + 8 * len;
    Ok((Proc::new(name, arity, code), size))
}

/// The procedures, `count` of them, and how many bytes they take.
fn procedures_at(
    alloc: Global,
    version: Version,
    bytes: &[u8],
    count: usize,
) -> Result<(Vec<Proc>, usize), LoadError>
    ensures read { Gives (λ x. (x.0.items, drop x.1 bytes.now)) result
        (procedures_at version 0 count bytes.now) }
    ensures spelled { IfOk result
        (λ x. bytes.now ≡ procedures_bytes x.0.items ++ drop x.1 bytes.now) }
    ensures within { IfOk result (λ x. x.1 ≤ length bytes.now) }
    ensures count { IfOk result (λ x. length x.0.items ≡ count) }
    ensures fit { IfOk result (λ x. list_all is_procedure x.0.items ≡ true) }
    ensures version { IfOk result (λ x. list_all (has_version version) x.0.items ≡ true) }
{
    let mut procs = Vec::with_capacity(alloc, count)?;
    let mut size = 0;
    let mut rest = bytes;
    for n in 0..count {
        let (procedure, more) = procedure_at(alloc, version, rest, n)?;
        procs.push(procedure)?;
        size += more;
        let (_, after) = rest.split_at(more);
        rest = after;
    }
    Ok((procs, size))
}

/// The version whose modules begin so, if one's do.
fn version_of(front: &[u8]) -> Option<Version>
    ensures exact { result ≡ version_of front.now }
    ensures spelled { IfSome result (λ version. front.now ≡ magic version) }
{
    if front == magic(Version::One).as_slice() {
        Some(Version::One)
    } else if front == magic(Version::Two).as_slice() {
        Some(Version::Two)
    } else {
        None
    }
}

/// The version, and the bytes after the magic.
#[tactic(auto, unfolding(crate::specs::Reading::version_at))]
fn version_at(bytes: &[u8]) -> Result<(Version, &[u8]), LoadFault>
    ensures read { Reads (λ x. (x.0, x.1.now)) result (version_at bytes.now) }
    ensures spelled { IfOk result (λ x. bytes.now ≡ magic x.0 ++ x.1.now) }
{
    let (front, rest) = bytes_at(bytes, 4, fault(LoadFaultKind::Truncated, 0, 0))?;
    match version_of(front) {
        Some(version) => Ok((version, rest)),
        None => Err(fault(LoadFaultKind::BadMagic, 0, 0)),
    }
}

/// The version, and how many procedures there are, after the magic.
#[tactic(auto, unfolding(crate::specs::Reading::count_at))]
fn count_at(bytes: &[u8]) -> Result<(Version, usize, &[u8]), LoadFault>
    ensures read { Reads (λ x. (x.0, (x.1, x.2.now))) result (count_at bytes.now) }
    ensures spelled { IfOk result (λ x. bytes.now ≡ magic x.0 ++ (x.1 ∷ x.2.now)) }
    ensures range { IfOk result (λ x. (1 ≤ x.1) × (x.1 ≤ MAX_PROCEDURES)) }
{
    let (version, rest) = version_at(bytes)?;
    let (count, rest) = byte_at(rest, fault(LoadFaultKind::Truncated, 0, 0))?;
    let count = usize::from(count);
    if count < 1 || count > MAX_PROCEDURES {
        return Err(fault(LoadFaultKind::BadHeader, 0, 0));
    }
    Ok((version, count, rest))
}

/// The version and the procedures of a module, out of all of its bytes.
#[tactic(auto, unfolding(crate::specs::Reading::module_at))]
pub(crate) fn module_at(alloc: Global, bytes: &[u8]) -> Result<(Version, Vec<Proc>), LoadError>
    ensures read { Gives (λ x. record { version = x.0; procedures = x.1.items }) result
        (module_at bytes.now) }
    ensures early { (fault : LoadFault) → count_at bytes.now ≡ Err fault
        → result ≡ Err (LoadError.Fault fault) }
    ensures spelled { IfOk result (λ x. IsModuleOf bytes.now (record {
      version = x.0;
      procedures = x.1.items;
    })) }
    ensures count { IfOk result
        (λ x. (1 ≤ length x.1.items) × (length x.1.items ≤ MAX_PROCEDURES)) }
    ensures fit { IfOk result (λ x. list_all is_procedure x.1.items ≡ true) }
    ensures version { IfOk result (λ x. list_all (has_version x.0) x.1.items ≡ true) }
{
    let (version, count, rest) = count_at(bytes)?;
    let (procs, size) = procedures_at(alloc, version, rest, count)?;
    if size < rest.len() {
        return Err(LoadError::Fault(fault(LoadFaultKind::Extra, 0, 0)));
    }
    Ok((version, procs))
}
