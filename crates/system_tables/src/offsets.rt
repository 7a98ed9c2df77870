//! Where the tables lie in their pages, and where their fields lie in them, in bytes: UEFI 2.10, 4.2 to 4.5
//! and 12.4. A field's name is the standard's. Tables of the system page are counted from `Layout::system`,
//! those of the boot page from `Layout::boot`.

/// The revision in each header: UEFI 2.10.
pub const REVISION: u64 = 0x0002_0064;

/// EFI_TABLE_HEADER: Signature, u64.
pub const HEADER_SIGNATURE: usize = 0;
/// EFI_TABLE_HEADER: Revision, u32.
pub const HEADER_REVISION: usize = 8;
/// EFI_TABLE_HEADER: HeaderSize, u32.
pub const HEADER_SIZE: usize = 12;
/// EFI_TABLE_HEADER: CRC32, u32.
pub const HEADER_CRC32: usize = 16;
/// The bytes of a header, behind which a table of services has its pointers.
pub const HEADER_END: usize = 24;

/// EFI_SYSTEM_TABLE, in the system page.
pub const SYSTEM_TABLE: usize = 0;
/// Its size.
pub const SYSTEM_TABLE_SIZE: usize = 120;
/// Its signature, `IBI SYST`.
pub const SYSTEM_TABLE_SIGNATURE: u64 = 0x5453_5953_2049_4249;
/// EFI_SYSTEM_TABLE: FirmwareVendor, a pointer to text.
pub const FIRMWARE_VENDOR: usize = 24;
/// EFI_SYSTEM_TABLE: FirmwareRevision, u32.
pub const FIRMWARE_REVISION: usize = 32;
/// EFI_SYSTEM_TABLE: ConsoleInHandle.
pub const CONSOLE_IN_HANDLE: usize = 40;
/// EFI_SYSTEM_TABLE: ConIn, a pointer.
pub const CON_IN: usize = 48;
/// EFI_SYSTEM_TABLE: ConsoleOutHandle.
pub const CONSOLE_OUT_HANDLE: usize = 56;
/// EFI_SYSTEM_TABLE: ConOut, a pointer.
pub const CON_OUT: usize = 64;
/// EFI_SYSTEM_TABLE: StandardErrorHandle.
pub const STANDARD_ERROR_HANDLE: usize = 72;
/// EFI_SYSTEM_TABLE: StdErr, a pointer.
pub const STD_ERR: usize = 80;
/// EFI_SYSTEM_TABLE: RuntimeServices, a pointer.
pub const RUNTIME_SERVICES: usize = 88;
/// EFI_SYSTEM_TABLE: BootServices, a pointer.
pub const BOOT_SERVICES: usize = 96;
/// EFI_SYSTEM_TABLE: NumberOfTableEntries, u64.
pub const NUMBER_OF_TABLE_ENTRIES: usize = 104;
/// EFI_SYSTEM_TABLE: ConfigurationTable, a pointer.
pub const CONFIGURATION_TABLE: usize = 112;

/// EFI_RUNTIME_SERVICES, in the system page.
pub const RUNTIME_TABLE: usize = 0x100;
/// Its size: a header and 14 pointers.
pub const RUNTIME_TABLE_SIZE: usize = 136;
/// Its signature, `RUNTSERV`.
pub const RUNTIME_TABLE_SIGNATURE: u64 = 0x5652_4553_544e_5552;
/// The slot of its first service, GetTime.
pub const RUNTIME_SLOT: u64 = 44;
/// Its services.
pub const RUNTIME_COUNT: usize = 14;

/// The vendor's name, in the system page.
pub const VENDOR_TEXT: usize = 0x200;

/// EFI_BOOT_SERVICES, in the boot page.
pub const BOOT_TABLE: usize = 0;
/// Its size: a header and 44 pointers.
pub const BOOT_TABLE_SIZE: usize = 376;
/// Its signature, `BOOTSERV`.
pub const BOOT_TABLE_SIGNATURE: u64 = 0x5652_4553_544f_4f42;
/// Its pointers up to the reserved one, which is 0.
pub const BOOT_COUNT: usize = 17;
/// The slot of the first service behind the reserved pointer, RegisterProtocolNotify.
pub const LATER_BOOT_SLOT: u64 = 18;
/// EFI_BOOT_SERVICES: Reserved, a pointer.
pub const BOOT_RESERVED: usize = 160;
/// EFI_BOOT_SERVICES: RegisterProtocolNotify, behind the reserved pointer.
pub const LATER_BOOT: usize = 168;
/// The services behind the reserved pointer.
pub const LATER_BOOT_COUNT: usize = 26;

/// EFI_SIMPLE_TEXT_OUTPUT_PROTOCOL, in the boot page.
pub const CONSOLE: usize = 0x200;
/// The slot of its first function, Reset.
pub const CONSOLE_SLOT: u64 = 58;
/// Its functions.
pub const CONSOLE_COUNT: usize = 9;
/// EFI_SIMPLE_TEXT_OUTPUT_PROTOCOL: Mode, a pointer.
pub const CONSOLE_MODE: usize = 72;

/// SIMPLE_TEXT_OUTPUT_MODE, in the boot page.
pub const MODE: usize = 0x300;
/// SIMPLE_TEXT_OUTPUT_MODE: MaxMode, i32.
pub const MAX_MODE: usize = 0;
/// SIMPLE_TEXT_OUTPUT_MODE: Mode, i32.
pub const CURRENT_MODE: usize = 4;
/// SIMPLE_TEXT_OUTPUT_MODE: Attribute, i32.
pub const ATTRIBUTE: usize = 8;
/// SIMPLE_TEXT_OUTPUT_MODE: CursorColumn, i32.
pub const CURSOR_COLUMN: usize = 12;
/// SIMPLE_TEXT_OUTPUT_MODE: CursorRow, i32.
pub const CURSOR_ROW: usize = 16;
/// SIMPLE_TEXT_OUTPUT_MODE: CursorVisible, 1 byte.
pub const CURSOR_VISIBLE: usize = 20;

/// The handle that carries the console protocol.
pub const CONSOLE_HANDLE: u64 = 16;
/// The bytes of a slot.
pub const SLOT_SIZE: u64 = 16;
