//! Tests of `call` over its two links in memory: the bytes that it sends and reads, what it prints and what it leaves.
use crate::hosts::{MemHost, Runs, cut_by, host_of, is_line, must, run_line, sink_of};
use crate::serves::{Network, check_one};
use crate::texts::{bytes_of, cut, number_of};
use std::alloc::Global;
use std::process::Abort;

// A row is a run: the words; what the servers of the two links send, or `none` where nobody is reached; what the client sends on each; what is printed;
// the status and the line on the errors' sink; and which of the output's writes fail.

/// Calls of objects of the sample: of a number, of a string, and of one that makes an object, which is held and given up.
const OWN_CALLS: &str =
    "call 127.0.0.1 1099 counter add(J)J 5 | ack reference first proxy 000E =sample.Counter handler 0000000000000011 00000007 0000000000000009 0000 01 78 | ack 51 ACED0005 77 0F 01 00000007 0000000000000006 8000 lease 00000000000927C0 vmid 00000008 0000000000000009 uid 0000 0000000000000006 00000005 51 ACED0005 77 17 01 00000007 0000000000000006 8001 0000000000000005 51 ACED0005 77 0F 01 00000007 0000000000000006 8002 | client registry 00000002 naming 74 0007 =counter 54 first | client collector 00000001 F6B6898D8BF28643 objects_of 00000001 object 0000000000000011 uid 0000 0000000000000009 00000007 77 08 8000000000000000 lease 00000000000927C0 vmid_after caller 50 ACED0005 77 2A 0000000000000011 00000007 0000000000000009 0000 FFFFFFFF DE3EC51A3025A10E 0000000000000005 collector 00000000 F6B6898D8BF28643 objects_of 00000001 object 0000000000000011 uid 0000 0000000000000009 00000007 77 08 8000000000000001 vmid_after caller 77 01 00 | =5~ | 0
call 127.0.0.1 1099 echo echo(Ljava/lang/Object;)Ljava/lang/Object; hi | ack reference first proxy 000B =sample.Echo handler 0000000000000010 00000007 0000000000000009 0000 01 78 | ack 51 ACED0005 77 0F 01 00000007 0000000000000006 8000 lease 00000000000927C0 vmid 00000008 0000000000000009 uid 0000 0000000000000006 00000005 51 ACED0005 77 0F 01 00000007 0000000000000006 8001 74 0002 6869 51 ACED0005 77 0F 01 00000007 0000000000000006 8002 | client registry 00000002 naming 74 0004 =echo 54 first | client collector 00000001 F6B6898D8BF28643 objects_of 00000001 object 0000000000000010 uid 0000 0000000000000009 00000007 77 08 8000000000000000 lease 00000000000927C0 vmid_after caller 50 ACED0005 77 22 0000000000000010 00000007 0000000000000009 0000 FFFFFFFF 90BEF25F467880C4 74 0002 6869 collector 00000000 F6B6898D8BF28643 objects_of 00000001 object 0000000000000010 uid 0000 0000000000000009 00000007 77 08 8000000000000001 vmid_after caller 77 01 00 | =\"hi\"~ | 0
call 127.0.0.1 1099 maker make()Lsample/Counter; | ack reference first proxy 000C =sample.Maker handler 0000000000000012 00000007 0000000000000009 0000 01 78 | ack 51 ACED0005 77 0F 01 00000007 0000000000000006 8000 lease 00000000000927C0 vmid 00000008 0000000000000009 uid 0000 0000000000000006 00000005 51 ACED0005 77 0F 01 00000007 0000000000000006 8001 made 51 ACED0005 77 0F 01 00000007 0000000000000006 8002 lease 00000000000927C0 vmid 00000008 0000000000000009 uid 0000 0000000000000006 00000005 51 ACED0005 77 0F 01 00000007 0000000000000006 8003 51 ACED0005 77 0F 01 00000007 0000000000000006 8004 | client registry 00000002 naming 74 0005 =maker 54 first | client collector 00000001 F6B6898D8BF28643 objects_of 00000001 object 0000000000000012 uid 0000 0000000000000009 00000007 77 08 8000000000000000 lease 00000000000927C0 vmid_after caller 50 ACED0005 77 22 0000000000000012 00000007 0000000000000009 0000 FFFFFFFF ACE0B5D2A70B1A38 collector 00000001 F6B6898D8BF28643 objects_of 00000001 object 0000000000000013 uid 0000 0000000000000009 00000007 77 08 8000000000000001 lease 00000000000927C0 vmid_after caller 54 00000007 0000000000000006 8001 collector 00000000 F6B6898D8BF28643 objects_of 00000001 object 0000000000000012 uid 0000 0000000000000009 00000007 77 08 8000000000000002 vmid_after caller 77 01 00 collector 00000000 F6B6898D8BF28643 objects_of 00000001 object 0000000000000013 uid 0000 0000000000000009 00000007 77 08 8000000000000003 vmid_after caller 77 01 00 | =ref_127.0.0.1_1099_19:7/9/0~ | 0";

/// Each type of result; each type of argument; and each kind of end.
const CALLS: &str =
    "call 127.0.0.1 1099 echo m()V | ack reference first proxy 000B =sample.Echo handler 0000000000000010 00000007 0000000000000009 0000 01 78 | ack 51 ACED0005 77 0F 01 00000007 0000000000000006 8000 lease 00000000000927C0 vmid 00000008 0000000000000009 uid 0000 0000000000000006 00000005 51 ACED0005 77 0F 01 00000007 0000000000000006 8001 51 ACED0005 77 0F 01 00000007 0000000000000006 8002 | client registry 00000002 naming 74 0004 =echo 54 first | client collector 00000001 F6B6898D8BF28643 objects_of 00000001 object 0000000000000010 uid 0000 0000000000000009 00000007 77 08 8000000000000000 lease 00000000000927C0 vmid_after caller 50 ACED0005 77 22 0000000000000010 00000007 0000000000000009 0000 FFFFFFFF 849C354B1158058C collector 00000000 F6B6898D8BF28643 objects_of 00000001 object 0000000000000010 uid 0000 0000000000000009 00000007 77 08 8000000000000001 vmid_after caller 77 01 00 | =void~ | 0
call 127.0.0.1 1099 echo m()Z | ack reference first proxy 000B =sample.Echo handler 0000000000000010 00000007 0000000000000009 0000 01 78 | ack 51 ACED0005 77 0F 01 00000007 0000000000000006 8000 lease 00000000000927C0 vmid 00000008 0000000000000009 uid 0000 0000000000000006 00000005 51 ACED0005 77 10 01 00000007 0000000000000006 8001 01 51 ACED0005 77 0F 01 00000007 0000000000000006 8002 | client registry 00000002 naming 74 0004 =echo 54 first | client collector 00000001 F6B6898D8BF28643 objects_of 00000001 object 0000000000000010 uid 0000 0000000000000009 00000007 77 08 8000000000000000 lease 00000000000927C0 vmid_after caller 50 ACED0005 77 22 0000000000000010 00000007 0000000000000009 0000 FFFFFFFF 210EBD653823627D collector 00000000 F6B6898D8BF28643 objects_of 00000001 object 0000000000000010 uid 0000 0000000000000009 00000007 77 08 8000000000000001 vmid_after caller 77 01 00 | =true~ | 0
call 127.0.0.1 1099 echo m()Z | ack reference first proxy 000B =sample.Echo handler 0000000000000010 00000007 0000000000000009 0000 01 78 | ack 51 ACED0005 77 0F 01 00000007 0000000000000006 8000 lease 00000000000927C0 vmid 00000008 0000000000000009 uid 0000 0000000000000006 00000005 51 ACED0005 77 10 01 00000007 0000000000000006 8001 00 51 ACED0005 77 0F 01 00000007 0000000000000006 8002 | client registry 00000002 naming 74 0004 =echo 54 first | client collector 00000001 F6B6898D8BF28643 objects_of 00000001 object 0000000000000010 uid 0000 0000000000000009 00000007 77 08 8000000000000000 lease 00000000000927C0 vmid_after caller 50 ACED0005 77 22 0000000000000010 00000007 0000000000000009 0000 FFFFFFFF 210EBD653823627D collector 00000000 F6B6898D8BF28643 objects_of 00000001 object 0000000000000010 uid 0000 0000000000000009 00000007 77 08 8000000000000001 vmid_after caller 77 01 00 | =false~ | 0
call 127.0.0.1 1099 echo m()B | ack reference first proxy 000B =sample.Echo handler 0000000000000010 00000007 0000000000000009 0000 01 78 | ack 51 ACED0005 77 0F 01 00000007 0000000000000006 8000 lease 00000000000927C0 vmid 00000008 0000000000000009 uid 0000 0000000000000006 00000005 51 ACED0005 77 10 01 00000007 0000000000000006 8001 FF 51 ACED0005 77 0F 01 00000007 0000000000000006 8002 | client registry 00000002 naming 74 0004 =echo 54 first | client collector 00000001 F6B6898D8BF28643 objects_of 00000001 object 0000000000000010 uid 0000 0000000000000009 00000007 77 08 8000000000000000 lease 00000000000927C0 vmid_after caller 50 ACED0005 77 22 0000000000000010 00000007 0000000000000009 0000 FFFFFFFF BD9EC772C8E46343 collector 00000000 F6B6898D8BF28643 objects_of 00000001 object 0000000000000010 uid 0000 0000000000000009 00000007 77 08 8000000000000001 vmid_after caller 77 01 00 | =-1~ | 0
call 127.0.0.1 1099 echo m()C | ack reference first proxy 000B =sample.Echo handler 0000000000000010 00000007 0000000000000009 0000 01 78 | ack 51 ACED0005 77 0F 01 00000007 0000000000000006 8000 lease 00000000000927C0 vmid 00000008 0000000000000009 uid 0000 0000000000000006 00000005 51 ACED0005 77 11 01 00000007 0000000000000006 8001 FFFF 51 ACED0005 77 0F 01 00000007 0000000000000006 8002 | client registry 00000002 naming 74 0004 =echo 54 first | client collector 00000001 F6B6898D8BF28643 objects_of 00000001 object 0000000000000010 uid 0000 0000000000000009 00000007 77 08 8000000000000000 lease 00000000000927C0 vmid_after caller 50 ACED0005 77 22 0000000000000010 00000007 0000000000000009 0000 FFFFFFFF D4FEBCC3AC71EFF2 collector 00000000 F6B6898D8BF28643 objects_of 00000001 object 0000000000000010 uid 0000 0000000000000009 00000007 77 08 8000000000000001 vmid_after caller 77 01 00 | =65535~ | 0
call 127.0.0.1 1099 echo m()S | ack reference first proxy 000B =sample.Echo handler 0000000000000010 00000007 0000000000000009 0000 01 78 | ack 51 ACED0005 77 0F 01 00000007 0000000000000006 8000 lease 00000000000927C0 vmid 00000008 0000000000000009 uid 0000 0000000000000006 00000005 51 ACED0005 77 11 01 00000007 0000000000000006 8001 8000 51 ACED0005 77 0F 01 00000007 0000000000000006 8002 | client registry 00000002 naming 74 0004 =echo 54 first | client collector 00000001 F6B6898D8BF28643 objects_of 00000001 object 0000000000000010 uid 0000 0000000000000009 00000007 77 08 8000000000000000 lease 00000000000927C0 vmid_after caller 50 ACED0005 77 22 0000000000000010 00000007 0000000000000009 0000 FFFFFFFF 23FD3A881977F85E collector 00000000 F6B6898D8BF28643 objects_of 00000001 object 0000000000000010 uid 0000 0000000000000009 00000007 77 08 8000000000000001 vmid_after caller 77 01 00 | =-32768~ | 0
call 127.0.0.1 1099 echo m()I | ack reference first proxy 000B =sample.Echo handler 0000000000000010 00000007 0000000000000009 0000 01 78 | ack 51 ACED0005 77 0F 01 00000007 0000000000000006 8000 lease 00000000000927C0 vmid 00000008 0000000000000009 uid 0000 0000000000000006 00000005 51 ACED0005 77 13 01 00000007 0000000000000006 8001 80000000 51 ACED0005 77 0F 01 00000007 0000000000000006 8002 | client registry 00000002 naming 74 0004 =echo 54 first | client collector 00000001 F6B6898D8BF28643 objects_of 00000001 object 0000000000000010 uid 0000 0000000000000009 00000007 77 08 8000000000000000 lease 00000000000927C0 vmid_after caller 50 ACED0005 77 22 0000000000000010 00000007 0000000000000009 0000 FFFFFFFF 71FF14E4DF640291 collector 00000000 F6B6898D8BF28643 objects_of 00000001 object 0000000000000010 uid 0000 0000000000000009 00000007 77 08 8000000000000001 vmid_after caller 77 01 00 | =-2147483648~ | 0
call 127.0.0.1 1099 echo m()Ljava/lang/String; | ack reference first proxy 000B =sample.Echo handler 0000000000000010 00000007 0000000000000009 0000 00 78 | ack 51 ACED0005 77 0F 01 00000007 0000000000000006 8000 lease 00000000000927C0 vmid 00000008 0000000000000009 uid 0000 0000000000000006 00000005 51 ACED0005 77 0F 01 00000007 0000000000000006 8001 70 51 ACED0005 77 0F 01 00000007 0000000000000006 8002 | client registry 00000002 naming 74 0004 =echo | client collector 00000001 F6B6898D8BF28643 objects_of 00000001 object 0000000000000010 uid 0000 0000000000000009 00000007 77 08 8000000000000000 lease 00000000000927C0 vmid_after caller 50 ACED0005 77 22 0000000000000010 00000007 0000000000000009 0000 FFFFFFFF 65D6501360DDBD3C collector 00000000 F6B6898D8BF28643 objects_of 00000001 object 0000000000000010 uid 0000 0000000000000009 00000007 77 08 8000000000000001 vmid_after caller 77 01 00 | =null~ | 0
call 127.0.0.1 1099 echo m()Ljava/lang/String; | ack reference first proxy 000B =sample.Echo handler 0000000000000010 00000007 0000000000000009 0000 01 78 | ack 51 ACED0005 77 0F 01 00000007 0000000000000006 8000 lease 00000000000927C0 vmid 00000008 0000000000000009 uid 0000 0000000000000006 00000005 51 ACED0005 77 0F 01 00000007 0000000000000006 8001 74 0005 22 5C C3A9 0A 51 ACED0005 77 0F 01 00000007 0000000000000006 8002 | client registry 00000002 naming 74 0004 =echo 54 first | client collector 00000001 F6B6898D8BF28643 objects_of 00000001 object 0000000000000010 uid 0000 0000000000000009 00000007 77 08 8000000000000000 lease 00000000000927C0 vmid_after caller 50 ACED0005 77 22 0000000000000010 00000007 0000000000000009 0000 FFFFFFFF 65D6501360DDBD3C collector 00000000 F6B6898D8BF28643 objects_of 00000001 object 0000000000000010 uid 0000 0000000000000009 00000007 77 08 8000000000000001 vmid_after caller 77 01 00 | =\"\\u0022\\u005c\\u00e9\\u000a\"~ | 0
call 127.0.0.1 1099 echo m()[Ljava/lang/String; | ack reference first proxy 000B =sample.Echo handler 0000000000000010 00000007 0000000000000009 0000 01 78 | ack 51 ACED0005 77 0F 01 00000007 0000000000000006 8000 lease 00000000000927C0 vmid 00000008 0000000000000009 uid 0000 0000000000000006 00000005 51 ACED0005 77 0F 01 00000007 0000000000000006 8001 texts 51 ACED0005 77 0F 01 00000007 0000000000000006 8002 | client registry 00000002 naming 74 0004 =echo 54 first | client collector 00000001 F6B6898D8BF28643 objects_of 00000001 object 0000000000000010 uid 0000 0000000000000009 00000007 77 08 8000000000000000 lease 00000000000927C0 vmid_after caller 50 ACED0005 77 22 0000000000000010 00000007 0000000000000009 0000 FFFFFFFF D64D9D15C28FA797 collector 00000000 F6B6898D8BF28643 objects_of 00000001 object 0000000000000010 uid 0000 0000000000000009 00000007 77 08 8000000000000001 vmid_after caller 77 01 00 | =#0_desc_\"[Ljava.lang.String;\"_add256e7e91d7b47_02_-_note_null_super_null~#1_array_#0_2_#2,#2~#2_text_\"a\"~item_#1~ | 0
call 127.0.0.1 1099 echo m(IZLjava/lang/String;BSLjava/lang/String;C)V ~2 true x ~1 2 x 65 | ack reference first proxy 000B =sample.Echo handler 0000000000000010 00000007 0000000000000009 0000 01 78 | ack 51 ACED0005 77 0F 01 00000007 0000000000000006 8000 lease 00000000000927C0 vmid 00000008 0000000000000009 uid 0000 0000000000000006 00000005 51 ACED0005 77 0F 01 00000007 0000000000000006 8001 51 ACED0005 77 0F 01 00000007 0000000000000006 8002 | client registry 00000002 naming 74 0004 =echo 54 first | client collector 00000001 F6B6898D8BF28643 objects_of 00000001 object 0000000000000010 uid 0000 0000000000000009 00000007 77 08 8000000000000000 lease 00000000000927C0 vmid_after caller 50 ACED0005 77 27 0000000000000010 00000007 0000000000000009 0000 FFFFFFFF 9826D575C426F651 FFFFFFFE 01 74 0001 78 77 03 FF 0002 74 0001 78 77 02 0041 collector 00000000 F6B6898D8BF28643 objects_of 00000001 object 0000000000000010 uid 0000 0000000000000009 00000007 77 08 8000000000000001 vmid_after caller 77 01 00 | =void~ | 0
call 127.0.0.1 1099 counter add(J)J 5 | none | none | | | | 3 dial fault
call 127.0.0.1 1099 counter add(J)J 5 | ack reference first proxy 000E =sample.Counter handler 0000000000000011 00000007 0000000000000009 0000 01 78 | none | client registry 00000002 naming 74 0007 =counter | | | 3 dial fault
call 127.0.0.1 1099 counter add(J)J 5 | 4F | none | 4A524D4900024B | | | 2 nack
call 127.0.0.1 1099 counter add(J)J 5 | ack reference first proxy 000E =sample.Counter handler 0000000000000011 00000007 0000000000000009 0000 01 78 | 4F | client registry 00000002 naming 74 0007 =counter | 4A524D4900024B | | 2 nack
call 127.0.0.1 1099 counter add(J)J 5 | ack exception first fault 0023 =java.rmi.NotBoundException:_counter 78 70 | none | client registry 00000002 naming 74 0007 =counter | | | 7 remote fault java.rmi.RemoteException: java.rmi.NotBoundException: counter
call 127.0.0.1 1099 counter add(J)J 5 | ack reference first proxy 000E =sample.Counter handler 0000000000000011 00000007 0000000000000009 0000 01 78 | ack 51 ACED0005 77 0F 01 00000007 0000000000000006 8000 lease 00000000000927C0 vmid 00000008 0000000000000009 uid 0000 0000000000000006 00000005 51 ACED0005 77 0F 02 00000007 0000000000000006 8001 fault overflow | client registry 00000002 naming 74 0007 =counter 54 first | client collector 00000001 F6B6898D8BF28643 objects_of 00000001 object 0000000000000011 uid 0000 0000000000000009 00000007 77 08 8000000000000000 lease 00000000000927C0 vmid_after caller 50 ACED0005 77 2A 0000000000000011 00000007 0000000000000009 0000 FFFFFFFF DE3EC51A3025A10E 0000000000000005 | | 7 remote fault java.rmi.RemoteException: java.lang.ArithmeticException: overflow
call 127.0.0.1 1099 counter add(J)J 5 | ack reference first proxy 000E =sample.Counter handler 0000000000000011 00000007 0000000000000009 0000 01 78 | ack 51 ACED0005 77 0F 01 00000007 0000000000000006 8000 lease 00000000000927C0 vmid 00000008 0000000000000009 uid 0000 0000000000000006 00000005 51 ACED0005 77 17 01 00000007 0000000000000006 8001 0000000000000005 | client registry 00000002 naming 74 0007 =counter 54 first | client collector 00000001 F6B6898D8BF28643 objects_of 00000001 object 0000000000000011 uid 0000 0000000000000009 00000007 77 08 8000000000000000 lease 00000000000927C0 vmid_after caller 50 ACED0005 77 2A 0000000000000011 00000007 0000000000000009 0000 FFFFFFFF DE3EC51A3025A10E 0000000000000005 collector 00000000 F6B6898D8BF28643 objects_of 00000001 object 0000000000000011 uid 0000 0000000000000009 00000007 77 08 8000000000000001 vmid_after caller 77 01 00 | | 2 truncated at 333
call 127.0.0.1 1099 counter add(J)J 5 | ack reference first proxy 000E =sample.Counter handler 0000000000000011 00000007 0000000000000009 0000 01 78 | ack 51 ACED0005 77 0F 01 00000007 0000000000000006 8000 lease 00000000000927C0 vmid 00000008 0000000000000009 uid 0000 0000000000000006 00000005 51 ACED0005 77 17 01 00000007 0000000000000006 8001 0000000000000005 51 ACED0005 77 0F 01 00000007 0000000000000006 8002 | client registry 00000002 naming 74 0007 =counter 54 first | client collector 00000001 F6B6898D8BF28643 objects_of 00000001 object 0000000000000011 uid 0000 0000000000000009 00000007 77 08 8000000000000000 lease 00000000000927C0 vmid_after caller 50 ACED0005 77 2A 0000000000000011 00000007 0000000000000009 0000 FFFFFFFF DE3EC51A3025A10E 0000000000000005 collector 00000000 F6B6898D8BF28643 objects_of 00000001 object 0000000000000011 uid 0000 0000000000000009 00000007 77 08 8000000000000001 vmid_after caller 77 01 00 | | 4 write fault | 0";

/// A row, with its fields.
#[derive(Clone, Copy)]
struct Row<'a> {
    words: &'a str,
    first_server: &'a str,
    second_server: &'a str,
    first_sent: &'a str,
    second_sent: &'a str,
    printed: &'a str,
    told: &'a str,
    failing_prints: &'a str,
}

/// The fields of a row.
fn row_of(line: &str) -> Row<'_> {
    let (words, rest) = cut(line, '|');
    let (first_server, rest) = cut(rest, '|');
    let (second_server, rest) = cut(rest, '|');
    let (first_sent, rest) = cut(rest, '|');
    let (second_sent, rest) = cut(rest, '|');
    let (printed, rest) = cut(rest, '|');
    let (told, failing_prints) = cut(rest, '|');
    Row {
        words,
        first_server,
        second_server,
        first_sent,
        second_sent,
        printed,
        told,
        failing_prints,
    }
}

/// Adds a server that sends these bytes, or none.
fn add_server(rt: &impl Abort, alloc: Global, network: &mut Network, server: &str) {
    if server != "none" {
        network.add(rt, alloc, server);
    }
}

/// Looks whether this link was left, with these bytes sent, where a server was reached on it.
fn check_link<H>(
    rt: &impl Abort,
    alloc: Global,
    host: &MemHost<H>,
    index: usize,
    server: &str,
    sent: &str,
) {
    let bytes = bytes_of(rt, alloc, sent);
    match host.talked.get(index) {
        Some(halves) => must(rt, halves.sink.bytes() == bytes.as_slice(), sent),
        None => must(rt, server == "none", "a link"),
    }
}

/// Looks at what a run told and left.
fn check_called<H>(rt: &impl Abort, alloc: Global, host: &MemHost<H>, row: Row) {
    let printed = bytes_of(rt, alloc, row.printed);
    let (_status, line) = cut(row.told, ' ');
    must(rt, host.output.bytes() == printed.as_slice(), row.printed);
    must(rt, is_line(host.errors.bytes(), line), line);
    check_link(rt, alloc, host, 0, row.first_server, row.first_sent);
    check_link(rt, alloc, host, 1, row.second_server, row.second_sent);
    must(
        rt,
        host.talked.len() == host.dialer.dialed_count(),
        "halves",
    );
}

/// Runs a row.
fn check_call(rt: &impl Runs, alloc: Global, line: &str) {
    let row = row_of(line);
    let (status, _line) = cut(row.told, ' ');
    let mut network = Network::new(alloc);
    add_server(rt, alloc, &mut network, row.first_server);
    add_server(rt, alloc, &mut network, row.second_server);
    let mut host = host_of(rt, alloc, b"", cut_by("-"));
    host.output = sink_of(rt, alloc, row.failing_prints);
    host.dialer = network.dialer(alloc);
    let ended = run_line(rt, alloc, row.words, &mut host);
    must(rt, u32::from(ended) == number_of(rt, status), line);
    check_called(rt, alloc, &host, row);
}

#[test]
fn calls_print_what_methods_return(rt: HostRuntime) {
    for line in CALLS.split('\n') {
        check_call(&rt, rt.alloc(), line);
    }
}

/// Runs a row, and serves what its client sends: our own server answers with the row's bytes on both links.
fn check_both_ends(rt: &impl Runs, alloc: Global, line: &str) {
    check_call(rt, alloc, line);
    let row = row_of(line);
    let mut network = Network::new(alloc);
    network.add(rt, alloc, row.first_sent);
    network.add(rt, alloc, row.second_sent);
    let mut host = host_of(rt, alloc, b"", cut_by("-"));
    host.listener = network.listener(alloc);
    let ended = run_line(rt, alloc, "serve 1099 2", &mut host);
    must(rt, ended == 0, "served");
    check_answers(rt, alloc, &host, row);
}

/// Looks whether the server answered the row's bytes on both links.
fn check_answers<H>(rt: &impl Abort, alloc: Global, host: &MemHost<H>, row: Row) {
    check_one(rt, alloc, host, 0, row.first_server);
    check_one(rt, alloc, host, 1, row.second_server);
}

#[test]
fn our_own_server_answers_calls(rt: HostRuntime) {
    for line in OWN_CALLS.split('\n') {
        check_both_ends(&rt, rt.alloc(), line);
    }
}
