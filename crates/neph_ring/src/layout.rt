// Where the fields of the device pages stand, as offsets in bytes. All numbers are little-endian.

// The console page: `struct xencons_interface` of Xen's public/io/console.h. The indexes are 32-bit
// numbers that run freely; an index masked by the size of its ring is a place in it.

/// The input's ring.
pub const XENCONS_IN: usize = 0;

/// The bytes of the input's ring.
pub const XENCONS_IN_SIZE: usize = 1024;

/// The output's ring.
pub const XENCONS_OUT: usize = 1024;

/// The bytes of the output's ring.
pub const XENCONS_OUT_SIZE: usize = 2048;

/// Where the input's consumer is.
pub const XENCONS_IN_CONS: usize = 3072;

/// Where the input's producer is.
pub const XENCONS_IN_PROD: usize = 3076;

/// Where the output's consumer is.
pub const XENCONS_OUT_CONS: usize = 3080;

/// Where the output's producer is.
pub const XENCONS_OUT_PROD: usize = 3084;

// The network page: 16 transmit slots, 16 receive slots and four indexes, which are 32-bit numbers
// that run freely. A slot is family, port and length, each of 16 bits, a zero of 16 bits, and 64
// bytes.

/// The transmit slots.
pub const NET_TX: usize = 0;

/// The receive slots.
pub const NET_RX: usize = 1152;

/// The slots of a part.
pub const NET_SLOTS: usize = 16;

/// The bytes of a slot.
pub const NET_SLOT_BYTES: usize = 72;

/// In a slot: the family.
pub const SLOT_FAMILY: usize = 0;

/// In a slot: the port.
pub const SLOT_PORT: usize = 2;

/// In a slot: how many bytes are carried.
pub const SLOT_LENGTH: usize = 4;

/// In a slot: the bytes.
pub const SLOT_BODY: usize = 8;

/// The most bytes that a slot carries.
pub const SLOT_BODY_BYTES: usize = 64;

/// Where the producer of the transmit part is.
pub const NET_TX_PROD: usize = 2304;

/// Where the consumer of the transmit part is.
pub const NET_TX_CONS: usize = 2308;

/// Where the producer of the receive part is.
pub const NET_RX_PROD: usize = 2312;

/// Where the consumer of the receive part is.
pub const NET_RX_CONS: usize = 2316;

// The 9P page: the number of the state, the message's length and its bytes.

/// The number of the state, of 32 bits.
pub const P9_STATE: usize = 0;

/// The length of the message, of 32 bits.
pub const P9_LENGTH: usize = 4;

/// The message.
pub const P9_MESSAGE: usize = 8;

/// The most bytes of a message.
pub const P9_MOST: usize = 1024;
