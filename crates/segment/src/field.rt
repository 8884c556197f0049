// A named field.

// The four tables of a column, which the caller holds.
#[derive(Clone, Copy)]
pub struct Tables<'a> {
    pub term_bytes: &'a [u8],
    pub term_ends: &'a [u32],
    pub row_ends: &'a [u32],
    pub ordinals: &'a [u32],
}

#[derive(Clone, Copy)]
pub enum Kind<'a> {
    Facet(Tables<'a>),
    Other,
}

#[derive(Clone, Copy)]
pub struct Field<'a> {
    pub name: &'a [u8],
    pub kind: Kind<'a>,
}
