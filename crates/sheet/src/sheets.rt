//! What an accepted sheet says.
use expression::FieldName;
use rack::Call;

/// The content of a sheet: the field by its name, k, the codes of all moduli, and the calls. A read's buffer
/// is not written on a sheet: it comes out with no codes, and with room for those of any message.
#[derive(Drop)]
pub struct Sheet {
    pub field: FieldName,
    pub carriers: usize,
    /// Nine to each modulus, one after the other, as the maker of a plan takes them.
    pub moduli: Vec<u16>,
    pub calls: Vec<Call>,
}
