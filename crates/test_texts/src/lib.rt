//! The texts of small blocks, for tests: inverters in a row, and what goes between them.
#![tactic(auto)]

/// The library, a form in a line: two routing layers, a via between them, a site, an inverter, and two blocks with
/// obstructions.
pub fn cells() -> &'static [u8] {
    b"LAYER m1 TYPE ROUTING ; DIRECTION HORIZONTAL ; WIDTH 0.1 ; SPACING 0.1 ; END m1
LAYER v1 TYPE CUT ; SPACING 0.1 ; END v1
LAYER m2 TYPE ROUTING ; DIRECTION VERTICAL ; WIDTH 0.1 ; SPACING 0.1 ; END m2
VIA V12 DEFAULT LAYER m1 ; RECT -0.05 -0.05 0.05 0.05 ; LAYER v1 ; RECT -0.05 -0.05 0.05 0.05 ; LAYER m2 ; RECT -0.05 -0.05 0.05 0.05 ; END V12
SITE core CLASS CORE ; SIZE 0.2 BY 2.0 ; END core
MACRO INV CLASS CORE ; ORIGIN 0 0 ; SIZE 0.4 BY 2.0 ; SYMMETRY X Y ; SITE core ;
PIN A DIRECTION INPUT ; PORT LAYER m1 ; RECT 0.05 0.85 0.15 1.05 ; END END A
PIN Y DIRECTION OUTPUT ; PORT LAYER m1 ; RECT 0.25 0.85 0.35 1.05 ; END END Y
PIN VDD USE POWER ; PORT LAYER m1 ; RECT 0 1.9 0.4 2.1 ; END END VDD
PIN VSS USE GROUND ; PORT LAYER m1 ; RECT 0 -0.1 0.4 0.1 ; END END VSS
END INV
MACRO BLK CLASS BLOCK ; SIZE 0.4 BY 2.0 ; OBS LAYER m1 ; RECT 0.1 0.7 0.3 1.2 ; END END BLK
MACRO BLK2 CLASS BLOCK ; SIZE 0.4 BY 2.0 ; OBS LAYER m1 ; RECT 0.1 0.7 0.3 1.2 ; LAYER m2 ; RECT -0.3 0 0.7 2 ; END END BLK2
END LIBRARY
"
}

/// Two inverters that are both at the lower left corner of the die.
pub fn two_at_one_place() -> &'static [u8] {
    b"VERSION 5.8 ;
DESIGN top ;
UNITS DISTANCE MICRONS 1000 ;
DIEAREA ( 0 0 ) ( 800 2000 ) ;
ROW r0 core 0 0 N DO 4 BY 1 STEP 200 0 ;
TRACKS X 100 DO 4 STEP 200 LAYER m2 ;
TRACKS Y 100 DO 10 STEP 200 LAYER m1 ;
COMPONENTS 2 ;
- u1 INV + PLACED ( 0 0 ) N ;
- u2 INV + PLACED ( 0 0 ) N ;
END COMPONENTS
END DESIGN
"
}

/// The same, in a net.
pub fn net_at_one_place() -> &'static [u8] {
    b"VERSION 5.8 ;
DESIGN top ;
UNITS DISTANCE MICRONS 1000 ;
DIEAREA ( 0 0 ) ( 800 2000 ) ;
ROW r0 core 0 0 N DO 4 BY 1 STEP 200 0 ;
TRACKS X 100 DO 4 STEP 200 LAYER m2 ;
TRACKS Y 100 DO 10 STEP 200 LAYER m1 ;
COMPONENTS 2 ;
- u1 INV + PLACED ( 0 0 ) N ;
- u2 INV + PLACED ( 0 0 ) N ;
END COMPONENTS
NETS 1 ;
- n1 ( u1 Y ) ( u2 A ) ;
END NETS
END DESIGN
"
}

/// The same, with a wire.
pub fn net_at_one_place_with_a_wire() -> &'static [u8] {
    b"VERSION 5.8 ;
DESIGN top ;
UNITS DISTANCE MICRONS 1000 ;
DIEAREA ( 0 0 ) ( 800 2000 ) ;
ROW r0 core 0 0 N DO 4 BY 1 STEP 200 0 ;
TRACKS X 100 DO 4 STEP 200 LAYER m2 ;
TRACKS Y 100 DO 10 STEP 200 LAYER m1 ;
COMPONENTS 2 ;
- u1 INV + PLACED ( 0 0 ) N ;
- u2 INV + PLACED ( 0 0 ) N ;
END COMPONENTS
NETS 1 ;
- n1 ( u1 Y ) ( u2 A )
  + ROUTED m1 ( 300 900 ) ( 500 900 ) ;
END NETS
END DESIGN
"
}

/// Two inverters in a net, and a block with an obstruction between them.
pub fn around_an_obstruction() -> &'static [u8] {
    b"VERSION 5.8 ;
DESIGN top ;
UNITS DISTANCE MICRONS 1000 ;
DIEAREA ( 0 0 ) ( 1200 2000 ) ;
ROW r0 core 0 0 N DO 6 BY 1 STEP 200 0 ;
TRACKS X 100 DO 6 STEP 200 LAYER m2 ;
TRACKS Y 100 DO 10 STEP 200 LAYER m1 ;
COMPONENTS 3 ;
- u1 INV + PLACED ( 0 0 ) N ;
- b1 BLK + FIXED ( 400 0 ) N ;
- u2 INV + PLACED ( 800 0 ) N ;
END COMPONENTS
NETS 1 ;
- n1 ( u1 Y ) ( u2 A ) ;
END NETS
END DESIGN
"
}

/// The same, with a wire through the obstruction.
pub fn around_an_obstruction_with_a_wire() -> &'static [u8] {
    b"VERSION 5.8 ;
DESIGN top ;
UNITS DISTANCE MICRONS 1000 ;
DIEAREA ( 0 0 ) ( 1200 2000 ) ;
ROW r0 core 0 0 N DO 6 BY 1 STEP 200 0 ;
TRACKS X 100 DO 6 STEP 200 LAYER m2 ;
TRACKS Y 100 DO 10 STEP 200 LAYER m1 ;
COMPONENTS 3 ;
- u1 INV + PLACED ( 0 0 ) N ;
- b1 BLK + FIXED ( 400 0 ) N ;
- u2 INV + PLACED ( 800 0 ) N ;
END COMPONENTS
NETS 1 ;
- n1 ( u1 Y ) ( u2 A )
  + ROUTED m1 ( 300 900 ) ( 500 900 ) ;
END NETS
END DESIGN
"
}

/// Two inverters in a net, and blockages of both kinds between them, in the bytes that are printed of them.
pub fn around_blockages() -> &'static [u8] {
    b"VERSION 5.8 ;
DESIGN top ;
UNITS DISTANCE MICRONS 1000 ;
DIEAREA ( 0 0 ) ( 1200 2000 ) ;
ROW r0 core 0 0 N DO 6 BY 1 STEP 200 0 ;
TRACKS X 100 DO 6 STEP 200 LAYER m2 ;
TRACKS Y 100 DO 10 STEP 200 LAYER m1 ;
COMPONENTS 2 ;
- u1 INV + PLACED ( 0 0 ) N ;
- u2 INV + PLACED ( 800 0 ) N ;
END COMPONENTS
BLOCKAGES 2 ;
- PLACEMENT RECT ( 400 0 ) ( 800 2000 ) ;
- LAYER m1 RECT ( 500 700 ) ( 700 1200 ) ;
END BLOCKAGES
NETS 1 ;
- n1 ( u1 Y ) ( u2 A ) ;
END NETS
END DESIGN
"
}

/// The same, where the second inverter is in the placement blockage, and one of its pins touches the other one.
pub fn in_a_blockage() -> &'static [u8] {
    b"VERSION 5.8 ;
DESIGN top ;
UNITS DISTANCE MICRONS 1000 ;
DIEAREA ( 0 0 ) ( 1200 2000 ) ;
ROW r0 core 0 0 N DO 6 BY 1 STEP 200 0 ;
TRACKS X 100 DO 6 STEP 200 LAYER m2 ;
TRACKS Y 100 DO 10 STEP 200 LAYER m1 ;
COMPONENTS 2 ;
- u1 INV + PLACED ( 0 0 ) N ;
- u2 INV + PLACED ( 400 0 ) N ;
END COMPONENTS
BLOCKAGES 2 ;
- PLACEMENT RECT ( 400 0 ) ( 600 2000 ) ;
- LAYER m1 RECT ( 450 700 ) ( 550 1200 ) ;
END BLOCKAGES
NETS 1 ;
- n1 ( u1 Y ) ( u2 A ) ;
END NETS
END DESIGN
"
}

/// Two inverters in a net with its wire, in the bytes that are printed of it.
pub fn wired() -> &'static [u8] {
    b"VERSION 5.8 ;
DESIGN top ;
UNITS DISTANCE MICRONS 1000 ;
DIEAREA ( 0 0 ) ( 800 2000 ) ;
ROW r0 core 0 0 N DO 4 BY 1 STEP 200 0 ;
TRACKS X 100 DO 4 STEP 200 LAYER m2 ;
TRACKS Y 100 DO 10 STEP 200 LAYER m1 ;
COMPONENTS 2 ;
- u1 INV + PLACED ( 0 0 ) N ;
- u2 INV + PLACED ( 400 0 ) N ;
END COMPONENTS
NETS 1 ;
- n1 ( u1 Y ) ( u2 A )
  + ROUTED m1 ( 300 900 ) ( 500 900 ) ;
END NETS
END DESIGN
"
}

/// The same, with its wire twice.
pub fn wired_twice() -> &'static [u8] {
    b"VERSION 5.8 ;
DESIGN top ;
UNITS DISTANCE MICRONS 1000 ;
DIEAREA ( 0 0 ) ( 800 2000 ) ;
ROW r0 core 0 0 N DO 4 BY 1 STEP 200 0 ;
TRACKS X 100 DO 4 STEP 200 LAYER m2 ;
TRACKS Y 100 DO 10 STEP 200 LAYER m1 ;
COMPONENTS 2 ;
- u1 INV + PLACED ( 0 0 ) N ;
- u2 INV + PLACED ( 400 0 ) N ;
END COMPONENTS
NETS 1 ;
- n1 ( u1 Y ) ( u2 A )
  + ROUTED m1 ( 300 900 ) ( 500 900 )
  NEW m1 ( 300 900 ) ( 500 900 ) ;
END NETS
END DESIGN
"
}

/// A block with each form that is printed, in the bytes that are printed of it. It is not legal.
pub fn every_form() -> &'static [u8] {
    b"VERSION 5.8 ;
DIVIDERCHAR / ;
BUSBITCHARS [] ;
DESIGN all ;
UNITS DISTANCE MICRONS 1000 ;
DIEAREA ( 0 0 ) ( 2400 2000 ) ;
ROW r0 core 0 0 N DO 12 BY 1 STEP 200 0 ;
TRACKS X 100 DO 12 STEP 200 LAYER m1 m2 ;
TRACKS Y 100 DO 10 STEP 200 ;
VIAS 1 ;
- v + RECT m1 ( -50 -50 ) ( 50 50 ) + RECT v1 ( -50 -50 ) ( 50 50 ) + RECT m2 ( -50 -50 ) ( 50 50 ) ;
END VIAS
COMPONENTS 4 ;
- u1 INV + PLACED ( 0 0 ) N ;
- u2 INV + PLACED ( 400 0 ) N ;
- u3 INV + PLACED ( 701 0 ) N ;
- u4 INV + UNPLACED ;
END COMPONENTS
PINS 1 ;
- p + NET n1 + DIRECTION INPUT + USE SIGNAL + PORT + LAYER m2 ( 0 0 ) ( 100 100 ) + PLACED ( 2000 1800 ) N ;
END PINS
BLOCKAGES 3 ;
- LAYER m1 RECT ( 380 800 ) ( 420 1000 ) ;
- PLACEMENT RECT ( 900 0 ) ( 1000 2000 ) RECT ( 1200 0 ) ( 1300 2000 ) ;
- LAYER m2 RECT ( 2150 1800 ) ( 2250 1900 ) RECT ( 2300 0 ) ( 2400 100 ) ;
END BLOCKAGES
SPECIALNETS 1 ;
- P ( u1 VDD ) ( u2 VDD ) + USE POWER
  + ROUTED m1 100 ( 1700 400 25 ) ( 1900 400 )
  NEW m1 0 ( 1700 400 ) v ;
END SPECIALNETS
NETS 2 ;
- n1 ( u1 Y ) ( u2 A ) ( PIN p )
  + ROUTED m1 ( 300 900 ) ( 500 900 ) ;
- n2 ( u2 Y ) ( u3 A ) + USE SIGNAL
  + ROUTED m1 ( 1500 1500 0 ) ( 1700 1500 60 )
  NEW m1 ( 1500 1500 ) V12
  NEW m1 ( 1700 1500 ) V12
  NEW m1 ( 1700 1500 ) RECT ( -50 -50 50 50 ) ;
END NETS
END DESIGN
"
}

/// Two components, two nets and a supply net, in the bytes that are printed of them.
pub fn before_changes() -> &'static [u8] {
    b"VERSION 5.8 ;
DESIGN top ;
UNITS DISTANCE MICRONS 1000 ;
DIEAREA ( 0 0 ) ( 1200 2000 ) ;
COMPONENTS 2 ;
- u1 INV + PLACED ( 0 0 ) N ;
- u2 INV + PLACED ( 400 0 ) N ;
END COMPONENTS
SPECIALNETS 1 ;
- vdd ( u1 VDD ) ( u2 VDD ) ;
END SPECIALNETS
NETS 2 ;
- n1 ( u1 Y ) ( u2 A )
  + ROUTED m1 ( 300 900 ) ( 500 900 ) ;
- n2 ( u2 Y ) ;
END NETS
END DESIGN
"
}

/// What those became. The die is another one; u1 is gone, u2 stands elsewhere, and u3 is added; vdd and n2 have other terminals, n1 too, and a
/// wire more.
pub fn after_changes() -> &'static [u8] {
    b"VERSION 5.8 ;
DESIGN top ;
UNITS DISTANCE MICRONS 1000 ;
DIEAREA ( 0 0 ) ( 1600 2000 ) ;
COMPONENTS 2 ;
- u3 INV + PLACED ( 0 0 ) N ;
- u2 INV + PLACED ( 800 0 ) N ;
END COMPONENTS
SPECIALNETS 1 ;
- vdd ( u3 VDD ) ( u2 VDD ) ;
END SPECIALNETS
NETS 2 ;
- n2 ( u3 Y ) ( u2 Y ) ;
- n1 ( u2 A )
  + ROUTED m1 ( 300 900 ) ( 500 900 )
  NEW m1 ( 700 900 ) ( 900 900 ) ;
END NETS
END DESIGN
"
}
