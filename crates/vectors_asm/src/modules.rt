//! Modules of WebAssembly.

/// What `SUM` is translated to: a type of two numbers of 32 bits to one, a function, its export `f`, and its body.
pub(crate) const SUMMING: &[u8] =
    b"\0asm\x01\0\0\0\x01\x07\x01`\x02\x7f\x7f\x01\x7f\x03\x02\x01\0\x07\x05\x01\x01f\0\0\x0a\x09\x01\x07\0 \0 \x01j\x0b";

/// It exports `m`, the sum of two numbers of 64 bits.
pub(crate) const ADDING: &[u8] =
    b"\0asm\x01\0\0\0\x01\x07\x01`\x02~~\x01~\x03\x02\x01\0\x07\x05\x01\x01m\0\0\x0a\x09\x01\x07\0 \0 \x01|\x0b";

/// It exports `m`, the product of two numbers of 64 bits.
pub(crate) const MULTIPLYING: &[u8] =
    b"\0asm\x01\0\0\0\x01\x07\x01`\x02~~\x01~\x03\x02\x01\0\x07\x05\x01\x01m\0\0\x0a\x09\x01\x07\0 \0 \x01~\x0b";

/// It exports `z`, the number of leading zeros of a number of 64 bits.
pub(crate) const COUNTING: &[u8] =
    b"\0asm\x01\0\0\0\x01\x06\x01`\x01~\x01~\x03\x02\x01\0\x07\x05\x01\x01z\0\0\x0a\x07\x01\x05\0 \0y\x0b";

/// It exports `b`, whether a number of 64 bits is below another one, both without a sign.
pub(crate) const COMPARING: &[u8] =
    b"\0asm\x01\0\0\0\x01\x07\x01`\x02~~\x01\x7f\x03\x02\x01\0\x07\x05\x01\x01b\0\0\x0a\x09\x01\x07\0 \0 \x01T\x0b";

/// It exports `l`, a load of 32 bits from one page that begins with five bytes of data.
pub(crate) const LOADING: &[u8] =
    b"\0asm\x01\0\0\0\x01\x06\x01`\x01\x7f\x01\x7f\x03\x02\x01\0\x05\x03\x01\0\x01\x07\x05\x01\x01l\0\0\x0a\x09\x01\x07\0 \0(\x02\0\x0b\x0b\x0b\x01\0A\0\x0b\x05\x01\x02\x03\x04\x05";

/// It exports `s`, a store of 64 bits to one page.
pub(crate) const STORING: &[u8] =
    b"\0asm\x01\0\0\0\x01\x06\x01`\x02\x7f~\0\x03\x02\x01\0\x05\x03\x01\0\x01\x07\x05\x01\x01s\0\0\x0a\x0b\x01\x09\0 \0 \x017\x03\0\x0b";

/// It exports `c`, which calls an entry of a table of four with 5: at 0 stands a function that adds 1, and at 2 one of another type.
pub(crate) const TABLE: &[u8] =
    b"\0asm\x01\0\0\0\x01\x0a\x02`\x01\x7f\x01\x7f`\0\x01\x7f\x03\x04\x03\0\x01\0\x04\x04\x01p\0\x04\x07\x05\x01\x01c\0\x02\x09\x0d\x02\0A\0\x0b\x01\0\0A\x02\x0b\x01\x01\x0a\x18\x03\x07\0 \0A\x01j\x0b\x04\0A\x07\x0b\x09\0A\x05 \0\x11\0\0\x0b";

/// It exports the import `env` `p` as `q`.
pub(crate) const IMPORTING: &[u8] =
    b"\0asm\x01\0\0\0\x01\x05\x01`\x01\x7f\0\x02\x09\x01\x03env\x01p\0\0\x07\x05\x01\x01q\0\0";

/// It exports `r`, a load of one byte from 17 pages.
pub(crate) const PAGES: &[u8] =
    b"\0asm\x01\0\0\0\x01\x06\x01`\x01\x7f\x01\x7f\x03\x02\x01\0\x05\x03\x01\0\x11\x07\x05\x01\x01r\0\0\x0a\x09\x01\x07\0 \0-\0\0\x0b";

/// It exports `f`, which leaves a block before an addition without operands.
pub(crate) const POLYMORPHIC: &[u8] =
    b"\0asm\x01\0\0\0\x01\x04\x01`\0\0\x03\x02\x01\0\x07\x05\x01\x01f\0\0\x0a\x0b\x01\x09\0\x02@\x0c\0j\x1a\x0b\x0b";

/// It exports `e`, which extends the low 8 bits of a number.
pub(crate) const EXTENDING: &[u8] =
    b"\0asm\x01\0\0\0\x01\x06\x01`\x01\x7f\x01\x7f\x03\x02\x01\0\x07\x05\x01\x01e\0\0\x0a\x07\x01\x05\0 \0\xc0\x0b";

/// It exports `e`, which extends the low 32 bits of a number of 64 bits.
pub(crate) const EXTENDING_WIDE: &[u8] =
    b"\0asm\x01\0\0\0\x01\x06\x01`\x01~\x01~\x03\x02\x01\0\x07\x05\x01\x01e\0\0\x0a\x07\x01\x05\0 \0\xc4\x0b";

/// It exports `c`, a copy, and `z`, a fill, over one page that begins with five bytes of data.
pub(crate) const BLOCKS: &[u8] =
    b"\0asm\x01\0\0\0\x01\x07\x01`\x03\x7f\x7f\x7f\0\x03\x03\x02\0\0\x05\x03\x01\0\x01\x07\x09\x02\x01c\0\0\x01z\0\x01\x0a\x1a\x02\x0c\0 \0 \x01 \x02\xfc\x0a\0\0\x0b\x0b\0 \0 \x01 \x02\xfc\x0b\0\x0b\x0b\x0b\x01\0A\0\x0b\x05\x01\x02\x03\x04\x05";

/// It exports `f`, which calls the import `env` `g` again and again.
pub(crate) const LOOPING: &[u8] =
    b"\0asm\x01\0\0\0\x01\x04\x01`\0\0\x02\x09\x01\x03env\x01g\0\0\x03\x02\x01\0\x07\x05\x01\x01f\0\x01\x0a\x0b\x01\x09\0\x03@\x10\0\x0c\0\x0b\x0b";

/// It imports the global `env` `g`, a number of 32 bits.
pub(crate) const GLOBAL: &[u8] = b"\0asm\x01\0\0\0\x02\x0a\x01\x03env\x01g\x03\x7f\0";

/// It imports the table `env` `t`.
pub(crate) const TABLE_IMPORT: &[u8] = b"\0asm\x01\0\0\0\x02\x0b\x01\x03env\x01t\x01p\0\0";

/// It imports `env` `g`, a global that may change.
pub(crate) const MUTABLE_IMPORT: &[u8] = b"\0asm\x01\0\0\0\x02\x0a\x01\x03env\x01g\x03\x7f\x01";

/// A memory of 4,097 pages.
pub(crate) const MANY_PAGES: &[u8] = b"\0asm\x01\0\0\0\x05\x04\x01\0\x81 ";

/// `ADDING`, with a custom section, two runs of no locals, and numbers that are longer than they need be.
pub(crate) const PADDED: &[u8] =
    b"\0asm\x01\0\0\0\0\x02\x01c\x01\x07\x01`\x02~~\x01~\x03\x02\x01\0\x07\x85\0\x01\x01m\0\0\x0a\x0f\x01\x0d\x02\0\x7f\0~ \0 \x81\x80\0|\x0b";

/// It exports `r`, a rotation of 64 bits to the left.
pub(crate) const ROTATING: &[u8] =
    b"\0asm\x01\0\0\0\x01\x07\x01`\x02~~\x01~\x03\x02\x01\0\x07\x05\x01\x01r\0\0\x0a\x09\x01\x07\0 \0 \x01\x89\x0b";
