// A catalogue, as every call is lent it: how many options each feature has, and the rules as one list of numbers. Both are
// of any length and hold anything; `fault` says what is wrong with them, and `accepted` that nothing is.
#[derive(Clone, Copy)]
pub struct Catalogue<'a> {
    pub sizes: &'a [u8],
    pub rules: &'a [u16],
}
