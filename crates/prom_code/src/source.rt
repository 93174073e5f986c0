//! The source of the PROM.

/// The text that assembles to the words of the PROM.
pub fn prom_source() -> &'static str {
    "\
# The boot: Status has BEV alone, and the image is entered at the address in ENTRY.
.org 0xbfc00000
start:   lui k1,0x40
         mtc0 k1,Status
         lui k0,0xbf00
         lw k0,36(k0)
         jr k0
         nop

# A TLB refill goes on at 80000000.
.org 0xbfc00200
         lui k0,0x8000
         jr k0
         nop

# Any other exception: VCED (31 * 4 = 0x7c) and VCEI (14 * 4 = 0x38) go to virtual, all else goes on at 80000180.
.org 0xbfc00380
         mfc0 k0,Cause
         andi k0,k0,0x7c
         xori k1,k0,0x7c
         beq k1,zero,virtual
         xori k0,k0,0x38         # in the delay slot of the branch
         beq k0,zero,virtual
         nop
         lui k0,0x8000
         ori k0,k0,0x180
         jr k0
         nop

# Hit Writeback Invalidate SD takes the line out to memory, and the instruction begins anew.
virtual: mfc0 k0,BadVAddr
         cache 0x17,0(k0)
         eret

# The PROM has 4096 bytes.
.org 0xbfc01000
"
}
