// The table of types.
ghost use Rattle.std.specs.Prelude.{◌≡◌};
ghost use Rattle.entries.specs.Types.{element_size};

// How far an element of a lawful type reaches: so many bytes, or to its zero byte.
#[derive(Clone, Copy)]
pub enum ElementSize {
    Bytes(usize),
    ToZero,
}

// The element size of a type, where that is lawful (check 9).
pub fn element_size(ty: u32) -> Option<ElementSize>
    ensures { result ≡ element_size ty }
{
    match ty {
        1 => Some(ElementSize::Bytes(1)),
        2 => Some(ElementSize::Bytes(1)),
        3 => Some(ElementSize::Bytes(2)),
        4 => Some(ElementSize::Bytes(4)),
        6 => Some(ElementSize::ToZero),
        7 => Some(ElementSize::Bytes(1)),
        8 => Some(ElementSize::ToZero),
        9 => Some(ElementSize::ToZero),
        _ => None,
    }
}
