//! Spans, tokens, and the reserved words and marks of the profile.

/// The bytes from `start` up to and without `end`, counted from 0 at the first byte of the source.
#[derive(Clone, Copy, Debug, PartialEq, Eq)]
pub struct Span {
    pub start: u32,
    pub end: u32,
}

/// A literal (IEEE 1364-2005 section 3.5) of `width` bits, 1 to 128. The three masks have their
/// lowest digit in bit 0 and are below 2 to the width: `any` marks the places of z digits,
/// `unknown` those of x digits, and `value` is 0 in both.
#[derive(Clone, Copy, Debug, PartialEq, Eq)]
pub struct Number {
    pub width: u32,
    pub signed: bool,
    pub value: u128,
    pub any: u128,
    pub unknown: u128,
}

/// A reserved word, by its place in [`KEYWORDS`] (IEEE 1364-2005 annex B).
#[derive(Clone, Copy, Debug, PartialEq, Eq)]
pub struct Keyword(pub u8);

/// A punctuation mark or operator, by its place in [`MARKS`] (IEEE 1364-2005 sections 3.2 and 5.1).
#[derive(Clone, Copy, Debug, PartialEq, Eq)]
pub struct Mark(pub u8);

/// What a token is. The texts of names lie in the arena; an escaped name stands without its `\\`,
/// and a system name without its `$` (IEEE 1364-2005 section 3.7).
#[derive(Clone, Copy)]
pub enum Kind<'a> {
    Name(&'a str),
    System(&'a str),
    Number(Number),
    Keyword(Keyword),
    Mark(Mark),
}

/// A token and the bytes that spell it.
#[derive(Clone, Copy)]
pub struct Token<'a> {
    pub kind: Kind<'a>,
    pub span: Span,
}

/// The reserved words (IEEE 1364-2005 annex B), each at the place that its [`Keyword`] holds.
pub const KEYWORDS: [&str; 124] = [
    "always",
    "and",
    "assign",
    "automatic",
    "begin",
    "buf",
    "bufif0",
    "bufif1",
    "case",
    "casex",
    "casez",
    "cell",
    "cmos",
    "config",
    "deassign",
    "default",
    "defparam",
    "design",
    "disable",
    "edge",
    "else",
    "end",
    "endcase",
    "endconfig",
    "endfunction",
    "endgenerate",
    "endmodule",
    "endprimitive",
    "endspecify",
    "endtable",
    "endtask",
    "event",
    "for",
    "force",
    "forever",
    "fork",
    "function",
    "generate",
    "genvar",
    "highz0",
    "highz1",
    "if",
    "ifnone",
    "incdir",
    "include",
    "initial",
    "inout",
    "input",
    "instance",
    "integer",
    "join",
    "large",
    "liblist",
    "library",
    "localparam",
    "macromodule",
    "medium",
    "module",
    "nand",
    "negedge",
    "nmos",
    "nor",
    "noshowcancelled",
    "not",
    "notif0",
    "notif1",
    "or",
    "output",
    "parameter",
    "pmos",
    "posedge",
    "primitive",
    "pull0",
    "pull1",
    "pulldown",
    "pullup",
    "pulsestyle_onevent",
    "pulsestyle_ondetect",
    "rcmos",
    "real",
    "realtime",
    "reg",
    "release",
    "repeat",
    "rnmos",
    "rpmos",
    "rtran",
    "rtranif0",
    "rtranif1",
    "scalared",
    "showcancelled",
    "signed",
    "small",
    "specify",
    "specparam",
    "strong0",
    "strong1",
    "supply0",
    "supply1",
    "table",
    "task",
    "time",
    "tran",
    "tranif0",
    "tranif1",
    "tri",
    "tri0",
    "tri1",
    "triand",
    "trior",
    "trireg",
    "unsigned",
    "use",
    "uwire",
    "vectored",
    "wait",
    "wand",
    "weak0",
    "weak1",
    "while",
    "wire",
    "wor",
    "xnor",
    "xor",
];

/// The marks, each at the place that its [`Mark`] holds.
pub const MARKS: [&str; 45] = [
    "(", ")", "[", "]", "{", "}", ",", ";", ":", ".", "#", "@", "?", "=", "+", "-", "*", "/", "%",
    "!", "~", "&", "|", "^", "<", ">", "**", "==", "!=", "===", "!==", "<=", ">=", "<<", ">>",
    "<<<", ">>>", "&&", "||", "~&", "~|", "~^", "^~", "+:", "-:",
];

impl Keyword {
    /// The reserved word `always`.
    pub const ALWAYS: Keyword = Keyword(0);

    /// The reserved word `and`.
    pub const AND: Keyword = Keyword(1);

    /// The reserved word `assign`.
    pub const ASSIGN: Keyword = Keyword(2);

    /// The reserved word `automatic`.
    pub const AUTOMATIC: Keyword = Keyword(3);

    /// The reserved word `begin`.
    pub const BEGIN: Keyword = Keyword(4);

    /// The reserved word `buf`.
    pub const BUF: Keyword = Keyword(5);

    /// The reserved word `bufif0`.
    pub const BUFIF0: Keyword = Keyword(6);

    /// The reserved word `bufif1`.
    pub const BUFIF1: Keyword = Keyword(7);

    /// The reserved word `case`.
    pub const CASE: Keyword = Keyword(8);

    /// The reserved word `casex`.
    pub const CASEX: Keyword = Keyword(9);

    /// The reserved word `casez`.
    pub const CASEZ: Keyword = Keyword(10);

    /// The reserved word `cell`.
    pub const CELL: Keyword = Keyword(11);

    /// The reserved word `cmos`.
    pub const CMOS: Keyword = Keyword(12);

    /// The reserved word `config`.
    pub const CONFIG: Keyword = Keyword(13);

    /// The reserved word `deassign`.
    pub const DEASSIGN: Keyword = Keyword(14);

    /// The reserved word `default`.
    pub const DEFAULT: Keyword = Keyword(15);

    /// The reserved word `defparam`.
    pub const DEFPARAM: Keyword = Keyword(16);

    /// The reserved word `design`.
    pub const DESIGN: Keyword = Keyword(17);

    /// The reserved word `disable`.
    pub const DISABLE: Keyword = Keyword(18);

    /// The reserved word `edge`.
    pub const EDGE: Keyword = Keyword(19);

    /// The reserved word `else`.
    pub const ELSE: Keyword = Keyword(20);

    /// The reserved word `end`.
    pub const END: Keyword = Keyword(21);

    /// The reserved word `endcase`.
    pub const ENDCASE: Keyword = Keyword(22);

    /// The reserved word `endconfig`.
    pub const ENDCONFIG: Keyword = Keyword(23);

    /// The reserved word `endfunction`.
    pub const ENDFUNCTION: Keyword = Keyword(24);

    /// The reserved word `endgenerate`.
    pub const ENDGENERATE: Keyword = Keyword(25);

    /// The reserved word `endmodule`.
    pub const ENDMODULE: Keyword = Keyword(26);

    /// The reserved word `endprimitive`.
    pub const ENDPRIMITIVE: Keyword = Keyword(27);

    /// The reserved word `endspecify`.
    pub const ENDSPECIFY: Keyword = Keyword(28);

    /// The reserved word `endtable`.
    pub const ENDTABLE: Keyword = Keyword(29);

    /// The reserved word `endtask`.
    pub const ENDTASK: Keyword = Keyword(30);

    /// The reserved word `event`.
    pub const EVENT: Keyword = Keyword(31);

    /// The reserved word `for`.
    pub const FOR: Keyword = Keyword(32);

    /// The reserved word `force`.
    pub const FORCE: Keyword = Keyword(33);

    /// The reserved word `forever`.
    pub const FOREVER: Keyword = Keyword(34);

    /// The reserved word `fork`.
    pub const FORK: Keyword = Keyword(35);

    /// The reserved word `function`.
    pub const FUNCTION: Keyword = Keyword(36);

    /// The reserved word `generate`.
    pub const GENERATE: Keyword = Keyword(37);

    /// The reserved word `genvar`.
    pub const GENVAR: Keyword = Keyword(38);

    /// The reserved word `highz0`.
    pub const HIGHZ0: Keyword = Keyword(39);

    /// The reserved word `highz1`.
    pub const HIGHZ1: Keyword = Keyword(40);

    /// The reserved word `if`.
    pub const IF: Keyword = Keyword(41);

    /// The reserved word `ifnone`.
    pub const IFNONE: Keyword = Keyword(42);

    /// The reserved word `incdir`.
    pub const INCDIR: Keyword = Keyword(43);

    /// The reserved word `include`.
    pub const INCLUDE: Keyword = Keyword(44);

    /// The reserved word `initial`.
    pub const INITIAL: Keyword = Keyword(45);

    /// The reserved word `inout`.
    pub const INOUT: Keyword = Keyword(46);

    /// The reserved word `input`.
    pub const INPUT: Keyword = Keyword(47);

    /// The reserved word `instance`.
    pub const INSTANCE: Keyword = Keyword(48);

    /// The reserved word `integer`.
    pub const INTEGER: Keyword = Keyword(49);

    /// The reserved word `join`.
    pub const JOIN: Keyword = Keyword(50);

    /// The reserved word `large`.
    pub const LARGE: Keyword = Keyword(51);

    /// The reserved word `liblist`.
    pub const LIBLIST: Keyword = Keyword(52);

    /// The reserved word `library`.
    pub const LIBRARY: Keyword = Keyword(53);

    /// The reserved word `localparam`.
    pub const LOCALPARAM: Keyword = Keyword(54);

    /// The reserved word `macromodule`.
    pub const MACROMODULE: Keyword = Keyword(55);

    /// The reserved word `medium`.
    pub const MEDIUM: Keyword = Keyword(56);

    /// The reserved word `module`.
    pub const MODULE: Keyword = Keyword(57);

    /// The reserved word `nand`.
    pub const NAND: Keyword = Keyword(58);

    /// The reserved word `negedge`.
    pub const NEGEDGE: Keyword = Keyword(59);

    /// The reserved word `nmos`.
    pub const NMOS: Keyword = Keyword(60);

    /// The reserved word `nor`.
    pub const NOR: Keyword = Keyword(61);

    /// The reserved word `noshowcancelled`.
    pub const NOSHOWCANCELLED: Keyword = Keyword(62);

    /// The reserved word `not`.
    pub const NOT: Keyword = Keyword(63);

    /// The reserved word `notif0`.
    pub const NOTIF0: Keyword = Keyword(64);

    /// The reserved word `notif1`.
    pub const NOTIF1: Keyword = Keyword(65);

    /// The reserved word `or`.
    pub const OR: Keyword = Keyword(66);

    /// The reserved word `output`.
    pub const OUTPUT: Keyword = Keyword(67);

    /// The reserved word `parameter`.
    pub const PARAMETER: Keyword = Keyword(68);

    /// The reserved word `pmos`.
    pub const PMOS: Keyword = Keyword(69);

    /// The reserved word `posedge`.
    pub const POSEDGE: Keyword = Keyword(70);

    /// The reserved word `primitive`.
    pub const PRIMITIVE: Keyword = Keyword(71);

    /// The reserved word `pull0`.
    pub const PULL0: Keyword = Keyword(72);

    /// The reserved word `pull1`.
    pub const PULL1: Keyword = Keyword(73);

    /// The reserved word `pulldown`.
    pub const PULLDOWN: Keyword = Keyword(74);

    /// The reserved word `pullup`.
    pub const PULLUP: Keyword = Keyword(75);

    /// The reserved word `pulsestyle_onevent`.
    pub const PULSESTYLE_ONEVENT: Keyword = Keyword(76);

    /// The reserved word `pulsestyle_ondetect`.
    pub const PULSESTYLE_ONDETECT: Keyword = Keyword(77);

    /// The reserved word `rcmos`.
    pub const RCMOS: Keyword = Keyword(78);

    /// The reserved word `real`.
    pub const REAL: Keyword = Keyword(79);

    /// The reserved word `realtime`.
    pub const REALTIME: Keyword = Keyword(80);

    /// The reserved word `reg`.
    pub const REG: Keyword = Keyword(81);

    /// The reserved word `release`.
    pub const RELEASE: Keyword = Keyword(82);

    /// The reserved word `repeat`.
    pub const REPEAT: Keyword = Keyword(83);

    /// The reserved word `rnmos`.
    pub const RNMOS: Keyword = Keyword(84);

    /// The reserved word `rpmos`.
    pub const RPMOS: Keyword = Keyword(85);

    /// The reserved word `rtran`.
    pub const RTRAN: Keyword = Keyword(86);

    /// The reserved word `rtranif0`.
    pub const RTRANIF0: Keyword = Keyword(87);

    /// The reserved word `rtranif1`.
    pub const RTRANIF1: Keyword = Keyword(88);

    /// The reserved word `scalared`.
    pub const SCALARED: Keyword = Keyword(89);

    /// The reserved word `showcancelled`.
    pub const SHOWCANCELLED: Keyword = Keyword(90);

    /// The reserved word `signed`.
    pub const SIGNED: Keyword = Keyword(91);

    /// The reserved word `small`.
    pub const SMALL: Keyword = Keyword(92);

    /// The reserved word `specify`.
    pub const SPECIFY: Keyword = Keyword(93);

    /// The reserved word `specparam`.
    pub const SPECPARAM: Keyword = Keyword(94);

    /// The reserved word `strong0`.
    pub const STRONG0: Keyword = Keyword(95);

    /// The reserved word `strong1`.
    pub const STRONG1: Keyword = Keyword(96);

    /// The reserved word `supply0`.
    pub const SUPPLY0: Keyword = Keyword(97);

    /// The reserved word `supply1`.
    pub const SUPPLY1: Keyword = Keyword(98);

    /// The reserved word `table`.
    pub const TABLE: Keyword = Keyword(99);

    /// The reserved word `task`.
    pub const TASK: Keyword = Keyword(100);

    /// The reserved word `time`.
    pub const TIME: Keyword = Keyword(101);

    /// The reserved word `tran`.
    pub const TRAN: Keyword = Keyword(102);

    /// The reserved word `tranif0`.
    pub const TRANIF0: Keyword = Keyword(103);

    /// The reserved word `tranif1`.
    pub const TRANIF1: Keyword = Keyword(104);

    /// The reserved word `tri`.
    pub const TRI: Keyword = Keyword(105);

    /// The reserved word `tri0`.
    pub const TRI0: Keyword = Keyword(106);

    /// The reserved word `tri1`.
    pub const TRI1: Keyword = Keyword(107);

    /// The reserved word `triand`.
    pub const TRIAND: Keyword = Keyword(108);

    /// The reserved word `trior`.
    pub const TRIOR: Keyword = Keyword(109);

    /// The reserved word `trireg`.
    pub const TRIREG: Keyword = Keyword(110);

    /// The reserved word `unsigned`.
    pub const UNSIGNED: Keyword = Keyword(111);

    /// The reserved word `use`.
    pub const USE: Keyword = Keyword(112);

    /// The reserved word `uwire`.
    pub const UWIRE: Keyword = Keyword(113);

    /// The reserved word `vectored`.
    pub const VECTORED: Keyword = Keyword(114);

    /// The reserved word `wait`.
    pub const WAIT: Keyword = Keyword(115);

    /// The reserved word `wand`.
    pub const WAND: Keyword = Keyword(116);

    /// The reserved word `weak0`.
    pub const WEAK0: Keyword = Keyword(117);

    /// The reserved word `weak1`.
    pub const WEAK1: Keyword = Keyword(118);

    /// The reserved word `while`.
    pub const WHILE: Keyword = Keyword(119);

    /// The reserved word `wire`.
    pub const WIRE: Keyword = Keyword(120);

    /// The reserved word `wor`.
    pub const WOR: Keyword = Keyword(121);

    /// The reserved word `xnor`.
    pub const XNOR: Keyword = Keyword(122);

    /// The reserved word `xor`.
    pub const XOR: Keyword = Keyword(123);
}

impl Mark {
    /// The mark `(`.
    pub const OPEN_PARENTHESIS: Mark = Mark(0);

    /// The mark `)`.
    pub const CLOSE_PARENTHESIS: Mark = Mark(1);

    /// The mark `[`.
    pub const OPEN_BRACKET: Mark = Mark(2);

    /// The mark `]`.
    pub const CLOSE_BRACKET: Mark = Mark(3);

    /// The mark `{`.
    pub const OPEN_BRACE: Mark = Mark(4);

    /// The mark `}`.
    pub const CLOSE_BRACE: Mark = Mark(5);

    /// The mark `,`.
    pub const COMMA: Mark = Mark(6);

    /// The mark `;`.
    pub const SEMICOLON: Mark = Mark(7);

    /// The mark `:`.
    pub const COLON: Mark = Mark(8);

    /// The mark `.`.
    pub const DOT: Mark = Mark(9);

    /// The mark `#`.
    pub const HASH: Mark = Mark(10);

    /// The mark `@`.
    pub const AT: Mark = Mark(11);

    /// The mark `?`.
    pub const QUESTION: Mark = Mark(12);

    /// The mark `=`.
    pub const EQUALS: Mark = Mark(13);

    /// The mark `+`.
    pub const PLUS: Mark = Mark(14);

    /// The mark `-`.
    pub const MINUS: Mark = Mark(15);

    /// The mark `*`.
    pub const STAR: Mark = Mark(16);

    /// The mark `/`.
    pub const SLASH: Mark = Mark(17);

    /// The mark `%`.
    pub const PERCENT: Mark = Mark(18);

    /// The mark `!`.
    pub const NOT: Mark = Mark(19);

    /// The mark `~`.
    pub const TILDE: Mark = Mark(20);

    /// The mark `&`.
    pub const AND: Mark = Mark(21);

    /// The mark `|`.
    pub const OR: Mark = Mark(22);

    /// The mark `^`.
    pub const XOR: Mark = Mark(23);

    /// The mark `<`.
    pub const LESS: Mark = Mark(24);

    /// The mark `>`.
    pub const GREATER: Mark = Mark(25);

    /// The mark `**`.
    pub const POWER: Mark = Mark(26);

    /// The mark `==`.
    pub const EQUAL: Mark = Mark(27);

    /// The mark `!=`.
    pub const NOT_EQUAL: Mark = Mark(28);

    /// The mark `===`.
    pub const CASE_EQUAL: Mark = Mark(29);

    /// The mark `!==`.
    pub const CASE_NOT_EQUAL: Mark = Mark(30);

    /// The mark `<=`.
    pub const LESS_OR_EQUAL: Mark = Mark(31);

    /// The mark `>=`.
    pub const GREATER_OR_EQUAL: Mark = Mark(32);

    /// The mark `<<`.
    pub const SHIFT_LEFT: Mark = Mark(33);

    /// The mark `>>`.
    pub const SHIFT_RIGHT: Mark = Mark(34);

    /// The mark `<<<`.
    pub const SIGNED_SHIFT_LEFT: Mark = Mark(35);

    /// The mark `>>>`.
    pub const SIGNED_SHIFT_RIGHT: Mark = Mark(36);

    /// The mark `&&`.
    pub const LOGICAL_AND: Mark = Mark(37);

    /// The mark `||`.
    pub const LOGICAL_OR: Mark = Mark(38);

    /// The mark `~&`.
    pub const NAND: Mark = Mark(39);

    /// The mark `~|`.
    pub const NOR: Mark = Mark(40);

    /// The mark `~^`.
    pub const XNOR: Mark = Mark(41);

    /// The mark `^~`.
    pub const XNOR_REVERSED: Mark = Mark(42);

    /// The mark `+:`.
    pub const PART_UP: Mark = Mark(43);

    /// The mark `-:`.
    pub const PART_DOWN: Mark = Mark(44);
}
