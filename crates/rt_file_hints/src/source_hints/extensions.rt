//! The instructions of other extensions, by their names.

/// The instructions whose names follow no rule, each behind its extension. Words that aren't instructions of RV32I are known by their bits
/// in `rt_fault_lines`.
static INSTRUCTIONS: [(&str, &[u8]); 11] = [
    (
        "M",
        b"mul mulh mulhsu mulhu div divu rem remu mulw divw divuw remw remuw",
    ),
    ("F", b"flw fsw frcsr fscsr frrm fsrm frflags fsflags"),
    ("D", b"fld fsd"),
    ("Q", b"flq fsq"),
    (
        "Zicsr",
        b"csrr csrw csrs csrc csrrw csrrs csrrc csrwi csrsi csrci csrrwi csrrsi csrrci",
    ),
    (
        "Zicntr",
        b"rdcycle rdcycleh rdtime rdtimeh rdinstret rdinstreth",
    ),
    ("Zifencei", b"fence.i"),
    (
        "Zba",
        b"sh1add sh2add sh3add add.uw sh1add.uw sh2add.uw sh3add.uw slli.uw",
    ),
    (
        "Zbb",
        b"andn orn xnor clz ctz cpop max maxu min minu rol ror rori rev8 orc.b sext.b sext.h zext.h",
    ),
    (
        "RV64I",
        b"ld sd lwu addiw addw subw sllw srlw sraw slliw srliw sraiw sext.w negw",
    ),
    (
        "the privileged architecture",
        b"mret sret uret wfi sfence.vma",
    ),
];

/// The extension that has an instruction of this name, in capitals or not.
pub(crate) fn extension_of(name: &[u8]) -> Option<&'static str> {
    match INSTRUCTIONS.iter().find(|row| contains(row.1, name)) {
        Some(row) => Some(row.0),
        None => extension_by_rule(name),
    }
}

fn contains(names: &[u8], name: &[u8]) -> bool {
    names
        .split(|byte| *byte == b' ')
        .any(|it| name.eq_ignore_ascii_case(it))
}

/// The extension of a name whose parts between points are as that extension has them.
fn extension_by_rule(name: &[u8]) -> Option<&'static str> {
    let mut parts = name.split(|byte| *byte == b'.');
    let first = parts.next()?;
    let second = parts.next()?;
    let third = parts.next().unwrap_or(b"");
    if first.eq_ignore_ascii_case(b"c") {
        return Some("C");
    }
    let begin = first.get(..3).unwrap_or(first);
    if begin.eq_ignore_ascii_case(b"amo") || contains(b"lr sc", first) {
        return Some("A");
    }
    match first {
        [b'f' | b'F', ..] => float_by(second, third),
        _ => None,
    }
}

/// The extensions of floats, the widest first, each with its letters.
const WIDTHS: [(&str, &[u8]); 3] = [("Q", b"q"), ("D", b"d"), ("F", b"s w")];

/// The extension of the widest float among these.
fn float_by(second: &[u8], third: &[u8]) -> Option<&'static str> {
    for (extension, widths) in WIDTHS {
        if contains(widths, second) || contains(widths, third) {
            return Some(extension);
        }
    }
    None
}
