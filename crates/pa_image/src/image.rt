use pa_fixups::Fixes;
use pa_macho::Role;
use pa_num::{Bytes, Names, Words};
use pa_object::Marks;

/// An image as data: its role, the words of `__text` and `__auth_stubs`, the bytes of `__const`, the size of `__auth_got`, the
/// bytes of `__data` with zeros where a slot stands, the names of words of `__text`, the imports, and the slots of `__DATA`.
#[derive(Debug, Drop)]
pub struct Image {
    pub role: Role,
    pub text: Words,
    pub stubs: Words,
    pub consts: Bytes,
    pub got: u32,
    pub cells: Bytes,
    pub marks: Marks,
    pub imports: Names,
    pub fixes: Fixes,
}
