//! A sample of a struct.
use std::alloc::Allocator;
use xdr_wire::{AtMostOne, Full, Reader, Spell, Wire, Writer, XdrFault};

/// One direction of a session (RFC 8881, section 18.36, `channel_attrs4`): a struct of seven fields.
#[derive(Clone, Copy, PartialEq, Eq)]
pub struct Channel {
    pub padding: u32,
    pub request_size: u32,
    pub reply_size: u32,
    pub cached_size: u32,
    pub operations: u32,
    pub slots: u32,
    pub rdma: Option<u32>,
}

impl Spell for Channel {
    ghost use Rattle.std.specs.Prelude.{None};
    ghost use Rattle.form_samples.specs.internal.Forms.{channel};
    ghost use Rattle.xdr_wire.specs.Wire.{at_most_one};

    ghost form = { channel };

    ghost view = { λ c. (
      c.padding,
      (c.request_size, (c.reply_size, (c.cached_size, (c.operations, (c.slots, at_most_one (λ n. n) c.rdma))))),
    ) };

    ghost normal = { None };

    fn write<A: Allocator>(self, writer: &mut Writer<A>) -> Result<(), Full> {
        let last = (self.operations, (self.slots, AtMostOne(self.rdma)));
        let sizes = (self.reply_size, (self.cached_size, last));
        (self.padding, (self.request_size, sizes)).write(writer)
    }
}

impl<'a> Wire<'a> for Channel {
    fn read(reader: &mut Reader<'a>) -> Result<Self, XdrFault> {
        let (padding, (request_size, (reply_size, (cached_size, last)))) = Wire::read(reader)?;
        let (operations, (slots, AtMostOne(rdma))) = last;
        Ok(Channel {
            padding,
            request_size,
            reply_size,
            cached_size,
            operations,
            slots,
            rdma,
        })
    }
}
