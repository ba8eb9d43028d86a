//! Extensions of RISC-V that this machine lacks, by a word of theirs (RISC-V Unprivileged ISA 20191213, chapter 24).

/// The opcode: the lowest seven bits.
const OPCODE: u32 = 0x7F;

/// The instructions of M, by funct3.
const MULTIPLY: [&str; 8] = [
    "mul: M",
    "mulh: M",
    "mulhsu: M",
    "mulhu: M",
    "div: M",
    "divu: M",
    "rem: M",
    "remu: M",
];

/// What a word with this opcode, funct3 and funct7 belongs to.
fn by_opcode(opcode: u32, funct3: usize, funct7: u32) -> Option<&'static str> {
    match (opcode, funct3, funct7) {
        (0x33, _, 1) => MULTIPLY.get(funct3).copied(),
        (0x33 | 0x13, _, _) => Some("Zba, Zbb or their kin"),
        (0x2F, _, _) => Some("an atomic: A"),
        (0x73, 1..=3 | 5..=7, _) => Some("a control register: Zicsr"),
        (0x73, 0, _) => Some("a privileged instruction"),
        (0x0F, 1, _) => Some("fence.i: Zifencei"),
        (0x07 | 0x27 | 0x43 | 0x47 | 0x4B | 0x4F | 0x53, _, _) => Some("floating point: F or D"),
        (0x57, _, _) => Some("a vector: V"),
        (0x1B | 0x3B, _, _) | (0x03, 3 | 6, _) | (0x23, 3, _) => Some("of RV64"),
        _ => None,
    }
}

/// What a word that is no instruction of RV32I is in an extension, if that can be known.
pub(crate) fn extension_of(word: u32) -> Option<&'static str> {
    if word & 3 != 3 {
        return Some("a compressed instruction: C");
    }
    let funct3 = (word >> 12) & 7;
    by_opcode(word & OPCODE, funct3 as usize, word >> 25)
}
