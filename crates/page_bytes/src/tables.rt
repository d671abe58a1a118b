// Classes as bits of a number, by a table. The table is held to its rule at all 256 bytes at once.
ghost use Rattle.std.specs.Prelude.{◌≡◌};
ghost use Rattle.page_bytes.specs.Classes.{blank, word_byte, stem_byte, class_bits, has_bit};

pub const BLANK: u8 = 1;

pub const WORD: u8 = 2;

pub const STEM: u8 = 4;

fn table_entry(b: u8) -> u8
    ensures { result ≡ class_bits b }
{
    CLASS_BITS[b as usize]
}

// The classes of a byte among those three, each by its bit.
pub fn class_bits(b: u8) -> u8
    ensures blank { has_bit result 1 ≡ blank b }
    ensures word { has_bit result 2 ≡ word_byte b }
    ensures stem { has_bit result 4 ≡ stem_byte b }
{
    table_entry(b)
}

static CLASS_BITS: [u8; 256] = [
    6, // 00
    6, // 01
    6, // 02
    6, // 03
    6, // 04
    6, // 05
    6, // 06
    6, // 07
    6, // 08
    1, // 09 tab
    0, // 0A LF
    1, // 0B VT
    1, // 0C FF
    0, // 0D CR
    6, // 0E
    6, // 0F
    6, // 10
    6, // 11
    6, // 12
    6, // 13
    6, // 14
    6, // 15
    6, // 16
    6, // 17
    6, // 18
    6, // 19
    6, // 1A
    0, // 1B ESC
    6, // 1C
    6, // 1D
    6, // 1E
    6, // 1F
    1, // 20 space
    0, // 21 !
    0, // 22 "
    0, // 23 #
    6, // 24 $
    0, // 25 %
    0, // 26 &
    0, // 27 '
    0, // 28 (
    0, // 29 )
    0, // 2A *
    0, // 2B +
    0, // 2C ,
    0, // 2D -
    0, // 2E .
    6, // 2F /
    6, // 30 0
    6, // 31 1
    6, // 32 2
    6, // 33 3
    6, // 34 4
    6, // 35 5
    6, // 36 6
    6, // 37 7
    6, // 38 8
    6, // 39 9
    0, // 3A :
    0, // 3B ;
    0, // 3C <
    0, // 3D =
    0, // 3E >
    0, // 3F ?
    2, // 40 @
    6, // 41 A
    6, // 42 B
    6, // 43 C
    6, // 44 D
    6, // 45 E
    6, // 46 F
    6, // 47 G
    6, // 48 H
    6, // 49 I
    6, // 4A J
    6, // 4B K
    6, // 4C L
    6, // 4D M
    6, // 4E N
    6, // 4F O
    6, // 50 P
    6, // 51 Q
    6, // 52 R
    6, // 53 S
    6, // 54 T
    6, // 55 U
    6, // 56 V
    6, // 57 W
    6, // 58 X
    6, // 59 Y
    6, // 5A Z
    0, // 5B [
    0, // 5C \
    0, // 5D ]
    0, // 5E ^
    0, // 5F _
    0, // 60 `
    6, // 61 a
    6, // 62 b
    6, // 63 c
    6, // 64 d
    6, // 65 e
    6, // 66 f
    6, // 67 g
    6, // 68 h
    6, // 69 i
    6, // 6A j
    6, // 6B k
    6, // 6C l
    6, // 6D m
    6, // 6E n
    6, // 6F o
    6, // 70 p
    6, // 71 q
    6, // 72 r
    6, // 73 s
    6, // 74 t
    6, // 75 u
    6, // 76 v
    6, // 77 w
    6, // 78 x
    6, // 79 y
    6, // 7A z
    0, // 7B {
    0, // 7C |
    0, // 7D }
    0, // 7E ~
    6, // 7F
    6, // 80
    6, // 81
    6, // 82
    6, // 83
    6, // 84
    6, // 85
    6, // 86
    6, // 87
    6, // 88
    6, // 89
    6, // 8A
    6, // 8B
    6, // 8C
    6, // 8D
    6, // 8E
    6, // 8F
    6, // 90
    6, // 91
    6, // 92
    6, // 93
    6, // 94
    6, // 95
    6, // 96
    6, // 97
    6, // 98
    6, // 99
    6, // 9A
    6, // 9B
    6, // 9C
    6, // 9D
    6, // 9E
    6, // 9F
    6, // A0
    6, // A1
    6, // A2
    6, // A3
    6, // A4
    6, // A5
    6, // A6
    6, // A7
    6, // A8
    6, // A9
    6, // AA
    6, // AB
    6, // AC
    6, // AD
    6, // AE
    6, // AF
    6, // B0
    6, // B1
    6, // B2
    6, // B3
    6, // B4
    6, // B5
    6, // B6
    6, // B7
    6, // B8
    6, // B9
    6, // BA
    6, // BB
    6, // BC
    6, // BD
    6, // BE
    6, // BF
    6, // C0
    6, // C1
    6, // C2
    6, // C3
    6, // C4
    6, // C5
    6, // C6
    6, // C7
    6, // C8
    6, // C9
    6, // CA
    6, // CB
    6, // CC
    6, // CD
    6, // CE
    6, // CF
    6, // D0
    6, // D1
    6, // D2
    6, // D3
    6, // D4
    6, // D5
    6, // D6
    6, // D7
    6, // D8
    6, // D9
    6, // DA
    6, // DB
    6, // DC
    6, // DD
    6, // DE
    6, // DF
    6, // E0
    6, // E1
    6, // E2
    6, // E3
    6, // E4
    6, // E5
    6, // E6
    6, // E7
    6, // E8
    6, // E9
    6, // EA
    6, // EB
    6, // EC
    6, // ED
    6, // EE
    6, // EF
    6, // F0
    6, // F1
    6, // F2
    6, // F3
    6, // F4
    6, // F5
    6, // F6
    6, // F7
    6, // F8
    6, // F9
    6, // FA
    6, // FB
    6, // FC
    6, // FD
    6, // FE
    6, // FF
];
