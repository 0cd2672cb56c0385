//! The attributes of a channel, `channel_attrs4` (RFC 8881, section 18.36).
use std::alloc::Allocator;
use xdr_wire::{AtMostOne, Full, Reader, Spell, Wire, Writer, XdrFault};

/// The attributes of one channel of a session (RFC 8881, section 18.36, `channel_attrs4`).
#[derive(Clone, Copy)]
pub struct Channel {
    /// Padding of requests and replies.
    pub padding: u32,
    /// The largest number of bytes of a request.
    pub request_size: u32,
    /// The largest number of bytes of a reply.
    pub reply_size: u32,
    /// The largest number of bytes of a cached reply.
    pub cached_size: u32,
    /// The largest number of operations of a COMPOUND.
    pub operations: u32,
    /// The number of slots.
    pub slots: u32,
    /// For RDMA.
    pub rdma: Option<u32>,
}

impl Spell for Channel {
    ghost use Rattle.std.specs.Prelude.{None};
    ghost use Rattle.nfs_ops.specs.Forms.{channel};
    ghost use Rattle.nfs_ops.specs.Views.{channel_value};

    ghost form = { channel };

    ghost view = { channel_value };

    ghost normal = { None };

    fn write<A: Allocator>(self, writer: &mut Writer<A>) -> Result<(), Full> {
        let last = (self.operations, (self.slots, AtMostOne(self.rdma)));
        let sizes = (self.reply_size, (self.cached_size, last));
        (self.padding, (self.request_size, sizes)).write(writer)
    }
}

impl<'a> Wire<'a> for Channel {
    fn read(reader: &mut Reader<'a>) -> Result<Self, XdrFault> {
        let (padding, (request_size, (reply_size, (cached_size, last)))) = Wire::read(reader)?;
        let (operations, (slots, AtMostOne(rdma))) = last;
        Ok(Channel {
            padding,
            request_size,
            reply_size,
            cached_size,
            operations,
            slots,
            rdma,
        })
    }
}
