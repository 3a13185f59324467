//! The mnemonics that the operation field of a listing line may hold.
ghost use Rattle.std.specs.Prelude.{◌≡◌, ◌<◌, ◌≤◌, length, nat_eq};
ghost use Rattle.std.specs.List.{list_any};
ghost use Rattle.s370_decode.specs.Meaning.{is_mnemonic};
ghost use Rattle.s370_decode.specs.Mnemonics.{word_number, mnemonic_numbers};

/// The mnemonics as numbers, their letters in base 256 after a leading 1. They rise, so that a search by halves
/// finds each.
const NUMBERS: [u64; 131] = [
    0x141, // A
    0x142, // B
    0x143, // C
    0x144, // D
    0x14C, // L
    0x14D, // M
    0x14E, // N
    0x14F, // O
    0x153, // S
    0x158, // X
    0x14148, // AH
    0x1414C, // AL
    0x14150, // AP
    0x14152, // AR
    0x14243, // BC
    0x14245, // BE
    0x14248, // BH
    0x1424C, // BL
    0x1424D, // BM
    0x1424F, // BO
    0x14250, // BP
    0x14252, // BR
    0x1425A, // BZ
    0x14348, // CH
    0x1434C, // CL
    0x14350, // CP
    0x14352, // CR
    0x14353, // CS
    0x14450, // DP
    0x14452, // DR
    0x14544, // ED
    0x14558, // EX
    0x14943, // IC
    0x14C41, // LA
    0x14C48, // LH
    0x14C4D, // LM
    0x14C52, // LR
    0x14D48, // MH
    0x14D50, // MP
    0x14D52, // MR
    0x14E43, // NC
    0x14E49, // NI
    0x14E52, // NR
    0x14F43, // OC
    0x14F49, // OI
    0x14F52, // OR
    0x15348, // SH
    0x1534C, // SL
    0x15350, // SP
    0x15352, // SR
    0x15354, // ST
    0x1544D, // TM
    0x15452, // TR
    0x15453, // TS
    0x15843, // XC
    0x15849, // XI
    0x15852, // XR
    0x1414C52, // ALR
    0x142414C, // BAL
    0x1424153, // BAS
    0x1424352, // BCR
    0x1424354, // BCT
    0x1424552, // BER
    0x1424852, // BHR
    0x1424C52, // BLR
    0x1424D52, // BMR
    0x1424E45, // BNE
    0x1424E48, // BNH
    0x1424E4C, // BNL
    0x1424E4D, // BNM
    0x1424E4F, // BNO
    0x1424E50, // BNP
    0x1424E5A, // BNZ
    0x1424F52, // BOR
    0x1425052, // BPR
    0x1425848, // BXH
    0x1425A52, // BZR
    0x1434453, // CDS
    0x1434C43, // CLC
    0x1434C49, // CLI
    0x1434C4D, // CLM
    0x1434C52, // CLR
    0x1435642, // CVB
    0x1435644, // CVD
    0x149434D, // ICM
    0x14C4352, // LCR
    0x14C4E52, // LNR
    0x14C5052, // LPR
    0x14C5452, // LTR
    0x14D5643, // MVC
    0x14D5649, // MVI
    0x14D564E, // MVN
    0x14D564F, // MVO
    0x14D565A, // MVZ
    0x14E4F50, // NOP
    0x1534C41, // SLA
    0x1534C4C, // SLL
    0x1534C52, // SLR
    0x153504D, // SPM
    0x1535241, // SRA
    0x153524C, // SRL
    0x1535250, // SRP
    0x1535443, // STC
    0x1535448, // STH
    0x153544D, // STM
    0x1535643, // SVC
    0x1545254, // TRT
    0x15A4150, // ZAP
    0x142414C52, // BALR
    0x142415352, // BASR
    0x142435452, // BCTR
    0x1424E4552, // BNER
    0x1424E4852, // BNHR
    0x1424E4C52, // BNLR
    0x1424E4D52, // BNMR
    0x1424E4F52, // BNOR
    0x1424E5052, // BNPR
    0x1424E5A52, // BNZR
    0x142584C45, // BXLE
    0x1434C434C, // CLCL
    0x145444D4B, // EDMK
    0x14D56434C, // MVCL
    0x14E4F5052, // NOPR
    0x15041434B, // PACK
    0x1534C4441, // SLDA
    0x1534C444C, // SLDL
    0x153524441, // SRDA
    0x15352444C, // SRDL
    0x15354434D, // STCM
    0x1554E504B, // UNPK
    0x14D5643494E, // MVCIN
];

/// The word as a number, likewise.
fn word_number(word: &[u8]) -> u64
    requires { length word.now ≤ 5 }
    ensures { result ≡ word_number word.now }
{
    let mut n = 1u64;
    for b in word {
        n = n * 256 + u64::from(*b);
    }
    n
}

fn is_listed(n: u64) -> bool
    ensures { result ≡ list_any (λ m. nat_eq m n) mnemonic_numbers }
{
    NUMBERS.binary_search(&n).is_ok()
}

/// Whether the text is a mnemonic of a machine instruction or an extended mnemonic of a branch, in upper case and
/// with nothing before or after it (High Level Assembler, "Extended Mnemonic Codes"). Takes no memory; the table is
/// searched by halves.
pub fn is_mnemonic(text: &[u8]) -> bool
    ensures { result ≡ is_mnemonic text.now }
{
    text.len() <= 5 && is_listed(word_number(text))
}
