//! The numbers of mach-o/loader.h, mach/machine.h and mach/vm_prot.h that an image has.

pub(crate) const MH_MAGIC_64: u128 = 0xfeed_facf;

pub(crate) const CPU_TYPE_ARM64: u128 = 0x0100_000c;

pub(crate) const CPU_SUBTYPE_ARM64E: u128 = 2;

pub(crate) const MH_EXECUTE: u32 = 2;

pub(crate) const MH_DYLIB: u32 = 6;

pub(crate) const MH_NOUNDEFS: u128 = 1;

pub(crate) const MH_DYLDLINK: u128 = 4;

pub(crate) const MH_TWOLEVEL: u128 = 0x80;

pub(crate) const MH_PIE: u128 = 0x0020_0000;

// The bytes of the structures.

pub(crate) const MACH_HEADER_64: u32 = 32;

/// A command's number and its size, with which each of the next begins.
pub(crate) const LOAD_COMMAND: u32 = 8;

pub(crate) const SEGMENT_COMMAND_64: u32 = 72;

pub(crate) const SECTION_64: u32 = 80;

pub(crate) const LINKEDIT_DATA_COMMAND: u32 = 16;

pub(crate) const SYMTAB_COMMAND: u32 = 24;

pub(crate) const ENTRY_POINT_COMMAND: u32 = 24;

pub(crate) const DYLIB_COMMAND: u32 = 24;

// Where fields stand in their structures.

/// `size` of `section_64`.
pub(crate) const SECTION_SIZE: usize = 40;

/// `datasize` of `linkedit_data_command`.
pub(crate) const DATA_SIZE: usize = 12;

/// `nsyms` of `symtab_command`.
pub(crate) const SYMBOL_COUNT: usize = 12;

/// `strsize` of `symtab_command`.
pub(crate) const STRINGS_SIZE: usize = 20;

pub(crate) const LC_SYMTAB: u32 = 2;

pub(crate) const LC_LOAD_DYLIB: u32 = 0xc;

pub(crate) const LC_ID_DYLIB: u32 = 0xd;

pub(crate) const LC_SEGMENT_64: u32 = 0x19;

pub(crate) const LC_MAIN: u32 = 0x8000_0028;

pub(crate) const LC_DYLD_CHAINED_FIXUPS: u32 = 0x8000_0034;

pub(crate) const VM_PROT_NONE: u128 = 0;

pub(crate) const VM_PROT_READ: u128 = 1;

pub(crate) const VM_PROT_WRITE: u128 = 2;

pub(crate) const VM_PROT_EXECUTE: u128 = 4;

pub(crate) const S_ATTR_SOME_INSTRUCTIONS: u128 = 0x400;

pub(crate) const S_ATTR_PURE_INSTRUCTIONS: u128 = 0x8000_0000;
